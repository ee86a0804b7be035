// The table's old form for a host (02, order 10), for tables that were kept in it: turned into the form of today, and back. Each function
// promises what the one below does, with the answer as one number (specs/Turning.antt); none asks anything of its caller.
#![tactic(auto)]

ghost use Rattle.std.specs.Prelude.{◌≡◌};
ghost use Rattle.forms.specs.Turns.{turned_number};
ghost use Rattle.answers.specs.Answers.{packed as packedOf};
ghost use Rattle.host_forms.specs.Turning.{HostsFromOld, HostsToOld};

use answers::packed;
use forms::TurnError;

fn turned(t: Result<(), TurnError>) -> u64
    ensures { result ≡ packedOf (turned_number t) 0 }
{
    match t {
        Ok(()) => packed(0, 0),
        Err(TurnError::NotRouter) => packed(12, 0),
    }
}

// Fills `table` from a table of the old form: 0, or 12.
pub fn from_old(old: &[u64; rows::CELLS], table: &mut [u64; layout::CELLS]) -> u64
    ensures { HostsFromOld old.now result table.old table.new }
{
    turned(forms::from_rows(old, table))
}

// Fills `old`, a table of the old form: 0, or 12.
pub fn to_old(table: &[u64; layout::CELLS], old: &mut [u64; rows::CELLS]) -> u64
    ensures { HostsToOld table.now result old.old old.new }
{
    turned(forms::to_rows(table, old))
}
