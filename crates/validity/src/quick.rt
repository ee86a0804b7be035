// The quick test of a table: flags by words, limits by columns, a look at single slots only where these do not tell. What it passes is a
// router's; what it does not, the test record by record decides.
ghost use Rattle.std.specs.Prelude.{◌≡◌, true, ◌≤◌, length};
ghost use Rattle.layout.specs.View.{state_of, cell_count};
ghost use Rattle.columns.specs.Within.{InUse};
ghost use Rattle.validity.specs.Valid.{max_time};
ghost use Rattle.validity.specs.Looks.{WordsRight, ColumnsRight, RecordsRight};

use crate::ids::ids_distinct;
use crate::slots::slots_right;
use crate::valid::{MAX_BACKOFF, MAX_GROUP, MAX_ID, MAX_RETAIN, caps};
use records::{SLOTS, param};

fn words_right(table: &[u64], used: u64) -> bool
    requires { length table.now ≡ cell_count }
    ensures { result ≡ true → WordsRight (state_of table.now) used }
{
    let clock = layout::load_clock(table);
    slot_words::flags::peer_flags(table, used)
        && slot_words::flags::topics_flags(table)
        && slot_words::members::times_within(table, clock)
}

// The numbers of n slots that have a limit, backoff ends up to m.
fn columns_right(table: &[u64], n: usize, m: u64) -> bool
    requires { InUse table.now n }
    ensures { result ≡ true → ColumnsRight (state_of table.now) n m }
{
    let caps2 = caps(table, param::P2_CAP);
    let caps3 = caps(table, param::P3_CAP);
    columns::peers_within(table, n, MAX_ID, MAX_GROUP, 2000000000, 1000000)
        && columns::ends_within(table, n, m)
        && columns::counters_within(table, n, &caps2, &caps3, 1000000, 1000000000000)
}

// Whether every record is surely a router's, and no id stands twice.
pub fn records_right(table: &[u64]) -> bool
    requires { (length table.now ≡ cell_count) × ((state_of table.now).clock ≤ max_time) }
    ensures { result ≡ true → RecordsRight (state_of table.now) }
{
    let clock = layout::load_clock(table);
    let used = layout::load_used(table);
    if (SLOTS as u64) < used {
        return false;
    }
    if !words_right(table, used) {
        return false;
    }
    if !columns_right(table, used as usize, clock + MAX_BACKOFF) {
        return false;
    }
    if !slots_right(table, used as usize, clock + MAX_RETAIN) {
        return false;
    }
    ids_distinct(table, used as usize)
}
