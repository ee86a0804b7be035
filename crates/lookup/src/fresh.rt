// The table of a fresh router. The definitions are specs/Fresh.antt.
ghost use Rattle.std.specs.Prelude.{None};
ghost use Rattle.std.specs.Prelude.{◌≡◌, length};
ghost use Rattle.params.specs.Check.{first_broken};
ghost use Rattle.layout.specs.View.{cell_count, state_of};
ghost use Rattle.lookup.specs.Fresh.{fresh_state, Makes};

use crate::FreshError;
use params::Params;
use records::Setup;

// Writes every cell of a fresh router: parameters that pass the check have their fields' signs, and stand as magnitudes.
fn fill(params: Params, table: &mut [u64])
    requires { (length table.old ≡ cell_count) × (first_broken params ≡ None) }
    ensures { state_of table.new ≡ fresh_state params }
{
    let numbers = params.numbers;
    let codes = limits::codes_of(&numbers);
    let edition = params.edition;
    let number = u64::from(edition);
    layout::clear(table);
    layout::store_codes(table, &codes);
    layout::store_setup(table, Setup { edition: number });
}

// Makes the table a fresh router's with these parameters, if they pass the check.
pub fn fresh(params: Params, table: &mut [u64]) -> Result<(), FreshError>
    requires { length table.old ≡ cell_count }
    ensures { Makes params result table.old table.new }
{
    match params.first_broken() {
        Some(i) => Err(FreshError::Broken(i)),
        None => {
            fill(params, table);
            Ok(())
        }
    }
}
