// How many connected peers hold a group, where the scores of many slots are taken: by buckets, so that not every two peers are compared.
// What they tell is specs/Buckets.antt.
ghost use Rattle.std.specs.Prelude.{◌≡◌, cond, ℕ, ◌+◌, ◌≤◌, ◌<◌, eqb};
ghost use Rattle.index.specs.Index.{one as Index·one};
ghost use Rattle.layout.specs.View.{state_of};
ghost use Rattle.validity.specs.Valid.{max_id, max_group};
ghost use Rattle.peer_score.specs.Standing.{Standing};
ghost use Rattle.peer_score.specs.Buckets.{bucket_count, bucket_of, with_one, with_held, Tells, below, pairs, Unused, Counted, Noting};
ghost use Rattle.peer_score.specs.Buckets.{Counting, Together, Gathered, Asking, AskingAll, Among, EmptyScore};
ghost use Rattle.score.specs.Score.{Scores};

use crate::weights::{TopicWeights, topics_at};
use crate::{load_general, sharing_of};
use records::{Groups, SLOTS};
use score::{Balance, Sharers, sums};
use words::slots::Slots;

// How many buckets there are: as many as slots, so that few groups share one.
pub const BUCKETS: usize = SLOTS;

// The groups in the buckets. Of each bucket: the group that came first, how many peers came for it, and how many for all others.
#[derive(Clone, Copy)]
pub struct Buckets {
    pub heads: [u32; BUCKETS],
    pub same: [u16; BUCKETS],
    pub others: [u16; BUCKETS],
}

// The bucket of a group.
fn bucket(group: u64) -> usize
    requires { group ≤ max_id }
    ensures { (result ≡ bucket_of group) × (result < bucket_count) }
{
    (group * 2654435769 / 16777216 % BUCKETS as u64) as usize
}

fn wide(n: u16) -> u64
    ensures { result ≡ n }
{
    u64::from(n)
}

fn one(b: bool) -> u16
    ensures { (result ≡ Index·one b) × (result ≤ 1) }
{
    u16::from(b)
}

// The head of a bucket once a peer of the group has come: that of the first.
fn head_of(same: u16, head: u32, group: u32) -> u32
    ensures { result ≡ cond (eqb same 0) group head }
{
    if same == 0 { group } else { head }
}

// Counts a peer of the group.
fn note(buckets: &mut Buckets, group: u64)
    requires { Noting buckets.old group max_id }
    ensures { (c : ℕ → ℕ) (n : ℕ) → Tells c n buckets.old
        → Tells (with_one c group) (n + 1) buckets.new }
{
    let b = bucket(group);
    let name = group as u32;
    let n = buckets.same[b];
    let m = buckets.others[b];
    let head = head_of(n, buckets.heads[b], name);
    let is_head = head == name;
    buckets.heads[b] = head;
    buckets.same[b] = n + one(is_head);
    buckets.others[b] = m + one(!is_head);
}

// Counts a peer of a group that its record holds as the group + 1; 0 is none.
fn note_held(buckets: &mut Buckets, held: u64)
    requires { Noting buckets.old held max_group }
    ensures { (c : ℕ → ℕ) (n : ℕ) → Tells c n buckets.old
        → Tells (with_held c held) (n + 1) buckets.new }
{
    if 1 <= held {
        note(buckets, held - 1);
    }
}

// Counts the connected peer in a slot, once for each of its groups.
fn note_slot(table: &[u64], buckets: &mut Buckets, slot: usize)
    requires { Counting table.now slot buckets.old }
    ensures { Tells (below (state_of table.now) (slot + 1)) (pairs (slot + 1))
        buckets.new }
{
    let g = layout::load_groups(table, slot);
    note_held(buckets, g.first);
    note_held(buckets, g.second);
    note_held(buckets, g.third);
    note_held(buckets, g.fourth);
}

// Counts the connected peers by group.
pub fn count_groups(table: &[u64], buckets: &mut Buckets)
    requires { Standing table.now × Unused buckets.old }
    ensures { Counted table.now buckets.new }
{
    let connected = layout::load_connected(table);
    for slot in Slots::of(connected) {
        note_slot(table, buckets, slot);
    }
}

// How many connected peers hold a group of a record: exactly of a head, and where it could be above the threshold. Else none, as a number
// that is not above it has no surplus either.
fn together(table: &[u64], buckets: &Buckets, threshold: u64, held: u64) -> u64
    requires { Asking table.now buckets.now held }
    ensures { Together (state_of table.now) threshold held result }
{
    if held == 0 {
        return 0;
    }
    let b = bucket(held - 1);
    if buckets.heads[b] == (held - 1) as u32 {
        return wide(buckets.same[b]);
    }
    let n = wide(buckets.others[b]);
    if n <= threshold {
        return 0;
    }
    sharing_of(table, held)
}

// The same of each of a record's groups.
fn gather(table: &[u64], buckets: &Buckets, threshold: u64, g: Groups) -> Sharers
    requires { AskingAll table.now buckets.now g }
    ensures { Gathered (state_of table.now) threshold g result }
{
    Sharers {
        first: together(table, buckets, threshold, g.first),
        second: together(table, buckets, threshold, g.second),
        third: together(table, buckets, threshold, g.third),
        fourth: together(table, buckets, threshold, g.fourth),
    }
}

// The score of the peer in a slot.
pub fn score_among(table: &[u64], buckets: &Buckets, weights: &TopicWeights, slot: usize) -> Balance
    requires { Among table.now buckets.now weights.now slot }
    ensures { Scores (state_of table.now) slot result }
{
    let p = layout::load_peer(table, slot);
    let g = load_general(table);
    let n = gather(table, buckets, g.threshold, p.groups);
    sums::total(sums::parts(g, topics_at(table, weights, slot), p.p5, n, p.p7))
}

// The score of an empty slot: it is the same in all of them, and most slots are empty in a small network.
pub fn empty_score(table: &[u64]) -> Balance
    requires { Standing table.now }
    ensures { EmptyScore (state_of table.now) result }
{
    let nobody = Sharers {
        first: 0,
        second: 0,
        third: 0,
        fourth: 0,
    };
    sums::total(sums::parts(
        load_general(table),
        Balance { gain: 0, loss: 0 },
        0,
        nobody,
        0,
    ))
}
