// The five steps of mesh maintenance, each from the mesh that the one before left, and all of them. A step that reads no scores, or goes by
// no order, keeps its promise whatever they are.
ghost use Rattle.std.specs.Prelude.{◌≡◌, List, ℕ, length};
ghost use Rattle.records.specs.Records.{slot_count};
ghost use Rattle.words.specs.Words.{bits_of};
ghost use Rattle.mesh.specs.Maintenance.{mesh1, mesh2, mesh3, mesh4, mesh5, meshes, changes_of};
ghost use Rattle.mesh.specs.Words.{view_of, meshes_of, changes_in};

use crate::{Degrees, Moves, Seen, Stages, ZERO_SCORE};
use sets::median::middle;
use sets::walks::{bests, fill, swap_to};
use sets::{at_least, both, except, size};
use words::WORDS;

// 1. The members that are not negative.
pub fn mesh1(v: Seen, scores: &[u64]) -> [u64; WORDS]
    requires { length scores.now ≡ slot_count }
    ensures { (order : List ℕ) → bits_of result ≡ mesh1 (view_of v scores.now order) }
{
    let members = v.members;
    both(members, at_least(ZERO_SCORE, scores))
}

// 2. Under lo: candidates up to d.
pub fn mesh2(t: Degrees, v: Seen, order: &[u64], m: [u64; WORDS]) -> [u64; WORDS]
    ensures { (scores : List ℕ) → bits_of result ≡ mesh2 t (view_of v scores order.now) (bits_of m) }
{
    let n = size(m);
    let lo = t.lo;
    if lo <= n {
        return m;
    }
    let candidates = v.candidates;
    fill(candidates, t.d.saturating_sub(n), order, m)
}

// 3. Over hi: the best, others to make d, the swaps.
pub fn mesh3(t: Degrees, v: Seen, scores: &[u64], order: &[u64], m: [u64; WORDS]) -> [u64; WORDS]
    ensures { bits_of result ≡ mesh3 slot_count t (view_of v scores.now order.now) (bits_of m) }
{
    let n = size(m);
    let hi = t.hi;
    if n <= hi {
        return m;
    }
    let outbound = v.outbound;
    let best = bests(t.score, scores, m, order);
    let keepers = fill(m, t.d.saturating_sub(size(best)), order, best);
    swap_to(t.out, scores, outbound, order, m, best, keepers)
}

// 4. Under out outbound: outbound candidates.
pub fn mesh4(t: Degrees, v: Seen, order: &[u64], m: [u64; WORDS]) -> [u64; WORDS]
    ensures { (scores : List ℕ) → bits_of result ≡ mesh4 t (view_of v scores order.now) (bits_of m) }
{
    let outbound = v.outbound;
    let candidates = v.candidates;
    let fits = both(candidates, outbound);
    let room = t.out.saturating_sub(size(both(m, outbound)));
    fill(fits, room, order, m)
}

// 5. If asked, and the median is under the threshold: up to two candidates above the median.
pub fn mesh5(t: Degrees, v: Seen, scores: &[u64], order: &[u64], m: [u64; WORDS]) -> [u64; WORDS]
    requires { length scores.now ≡ slot_count }
    ensures { bits_of result ≡ mesh5 t (view_of v scores.now order.now) (bits_of m) }
{
    let ask = v.ask;
    if !ask {
        return m;
    }
    let n = size(m);
    if n < 2 {
        return m;
    }
    let median = middle(n / 2, m, scores);
    let threshold = t.threshold;
    if threshold <= median {
        return m;
    }
    let candidates = v.candidates;
    let higher = at_least(median + 1, scores);
    fill(both(candidates, higher), 2, order, m)
}

// The mesh that each step leaves.
pub fn meshes(t: Degrees, v: Seen, scores: &[u64], order: &[u64]) -> Stages
    requires { length scores.now ≡ slot_count }
    ensures { meshes_of result ≡ meshes slot_count t (view_of v scores.now order.now) }
{
    let first = mesh1(v, scores);
    let second = mesh2(t, v, order, first);
    let third = mesh3(t, v, scores, order, second);
    let fourth = mesh4(t, v, order, third);
    let fifth = mesh5(t, v, scores, order, fourth);
    Stages {
        first: first,
        second: second,
        third: third,
        fourth: fourth,
        fifth: fifth,
    }
}

// What each step changes, from the mesh at the start.
pub fn changes(start: [u64; WORDS], m: Stages) -> Moves
    ensures { changes_in result ≡ changes_of (bits_of start) (meshes_of m) }
{
    let first = m.first;
    let second = m.second;
    let third = m.third;
    let fourth = m.fourth;
    let fifth = m.fifth;
    Moves {
        first: except(start, first),
        second: except(second, first),
        third: except(second, third),
        fourth: except(fourth, third),
        fifth: except(fifth, fourth),
    }
}
