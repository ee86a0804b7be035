// The table's two forms turned into each other (02, order 10: "a router's tables turn from each form into the other without loss"): the
// old one, of rows (crate rows), and the one that every call works on (crate layout). The definitions are specs/Turns.antt.
#![tactic(auto)]

pub mod copy;
pub mod test;

ghost use Rattle.forms.specs.Turns.{FromRows, ToRows};

// Why a table was not turned: it is no router's (test 12), and the other memory is as it was.
#[derive(Clone, Copy)]
pub enum TurnError {
    NotRouter,
}

// Fills `table` from a table of the old form.
pub fn from_rows(
    rows: &[u64; rows::CELLS],
    table: &mut [u64; layout::CELLS],
) -> Result<(), TurnError>
    ensures { FromRows result rows.now table.old table.new }
{
    if !test::is_router(rows) {
        return Err(TurnError::NotRouter);
    }
    copy::fill_table(rows, table);
    Ok(())
}

// Fills `rows`, a table of the old form.
pub fn to_rows(table: &[u64; layout::CELLS], rows: &mut [u64; rows::CELLS]) -> Result<(), TurnError>
    ensures { ToRows result table.now rows.old rows.new }
{
    if !validity::valid::is_router(table) {
        return Err(TurnError::NotRouter);
    }
    copy::fill_rows(table, rows);
    Ok(())
}
