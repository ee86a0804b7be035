// The times of the members: a walk over the set bits of each topic's member word, the lowest first.
ghost use Rattle.std.specs.Prelude.{◌≡◌, true, ℕ, ◌+◌, ◌*◌, ◌/◌, ◌%◌, ◌^◌, ◌<◌, ◌≤◌, length};
ghost use Rattle.records.specs.Records.{topic_in, place, slot_count, topic_count};
ghost use Rattle.layout.specs.View.{cell_count, state_of};
ghost use Rattle.slot_words.specs.Flags.{TimesWithin, MembersIn};

use records::TOPICS;

// Whether the times of a member together are at most the clock.
fn in_time(table: &[u64], slot: usize, t: usize, clock: u64) -> bool
    requires { (length table.now ≡ cell_count)
        × ((slot < slot_count) × ((t < topic_count) × ((topic_in (state_of table.now) (place slot t)).member ≡ 1))) }
    ensures { result ≡ true
        → (topic_in (state_of table.now) (place slot t)).graft + (topic_in (state_of table.now) (place slot t)).mesh
        ≤ clock }
{
    let graft = layout::load_graft(table, slot, t);
    let mesh = layout::load_mesh(table, slot, t);
    if clock < graft {
        return false;
    }
    mesh <= clock - graft
}

// The members among the slots of word i. Each turn clears the lowest set bit: as many turns as members, which no range counts.
fn word_in_time(table: &[u64], t: usize, i: usize, w: u64, clock: u64) -> bool
    requires { (length table.now ≡ cell_count)
        × ((t < topic_count) × ((i < 4) × MembersIn (state_of table.now) t i w)) }
    ensures { result ≡ true
        → (j : ℕ) →
        j < 64 →
        w / 2 ^ j % 2 ≡ 1 →
        (topic_in (state_of table.now) (place (64 * i + j) t)).graft
        + (topic_in (state_of table.now) (place (64 * i + j) t)).mesh
        ≤ clock }
{
    let mut b = w;
    while b != 0 {
        let slot = 64 * i + u64::trailing_zeros(b) as usize;
        if !in_time(table, slot, t, clock) {
            return false;
        }
        b = b & (b - 1);
    }
    true
}

fn topic_in_time(table: &[u64], t: usize, clock: u64) -> bool
    requires { (length table.now ≡ cell_count) × (t < topic_count) }
    ensures { result ≡ true → TimesWithin (state_of table.now) t clock }
{
    let m = layout::load_members(table, t);
    word_in_time(table, t, 0, m[0], clock)
        & word_in_time(table, t, 1, m[1], clock)
        & word_in_time(table, t, 2, m[2], clock)
        & word_in_time(table, t, 3, m[3], clock)
}

// Whether the times of every member together are at most the clock.
pub fn times_within(table: &[u64], clock: u64) -> bool
    requires { length table.now ≡ cell_count }
    ensures { result ≡ true → (t : ℕ) → t < topic_count → TimesWithin (state_of table.now) t clock }
{
    for t in 0..TOPICS {
        if !topic_in_time(table, t, clock) {
            return false;
        }
    }
    true
}
