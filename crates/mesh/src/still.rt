// Whether the four later steps leave the mesh of the first as it is: a test of that mesh and of its own members' scores alone, since most
// heartbeats change nothing.
ghost use Rattle.std.specs.Prelude.{◌≡◌, length};
ghost use Rattle.records.specs.Records.{slot_count};
ghost use Rattle.words.specs.Words.{bits_of};
ghost use Rattle.mesh.specs.Still.{is_low, is_still, still_of};
ghost use Rattle.mesh.specs.Words.{meshes_of};

use crate::{Degrees, Stages};
use sets::median::middle;
use sets::{both, size};
use words::WORDS;

// Whether opportunistic grafts are asked for, and the median of the mesh is under the threshold.
pub fn is_low(threshold: u64, ask: bool, scores: &[u64], m: [u64; WORDS]) -> bool
    requires { length scores.now ≡ slot_count }
    ensures { result ≡ is_low threshold ask scores.now (bits_of m) }
{
    if !ask {
        return false;
    }
    let n = size(m);
    if n < 2 {
        return false;
    }
    middle(n / 2, m, scores) < threshold
}

// Whether steps 2 to 5 leave the mesh m as it is.
pub fn is_still(
    t: Degrees,
    outbound: [u64; WORDS],
    ask: bool,
    scores: &[u64],
    m: [u64; WORDS],
) -> bool
    requires { length scores.now ≡ slot_count }
    ensures { result ≡ is_still t (bits_of outbound) ask scores.now (bits_of m) }
{
    let n = size(m);
    let outs = size(both(m, outbound));
    let enough = (t.lo <= n) & ((n <= t.hi) & (t.out <= outs));
    if !enough {
        return false;
    }
    !is_low(t.threshold, ask, scores, m)
}

// A mesh that every step leaves.
pub fn still(m: [u64; WORDS]) -> Stages
    ensures { meshes_of result ≡ still_of (bits_of m) }
{
    Stages {
        first: m,
        second: m,
        third: m,
        fourth: m,
        fifth: m,
    }
}
