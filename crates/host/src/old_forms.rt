// The table's old form (02, order 10), for tables that were kept in it: turned into the form of today, and back.
ghost use Rattle.host_forms.specs.Turning.{HostsFromOld, HostsToOld};

// Fills `table` from a table of the old form: 0, or 12.
#[unsafe(no_mangle)]
pub extern "C" fn hivepadlet_from_old(
    old: &[u64; rows::CELLS],
    table: &mut [u64; layout::CELLS],
) -> u64
    ensures { HostsFromOld old.now result table.old table.new }
{
    host_forms::from_old(old, table)
}

// Fills `old`, a table of the old form: 0, or 12.
#[unsafe(no_mangle)]
pub extern "C" fn hivepadlet_to_old(
    table: &[u64; layout::CELLS],
    old: &mut [u64; rows::CELLS],
) -> u64
    ensures { HostsToOld table.now result old.old old.new }
{
    host_forms::to_old(table, old)
}
