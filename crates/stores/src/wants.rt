// Of given numbers those that no topic stores, each once. They are sorted, and the place of each among them has a flag, up where it is
// stored or listed. A stored number is searched for by halves, and only where a given one fell into its bucket: however the numbers were
// chosen, no two lists are compared pair by pair.
ghost use Rattle.std.specs.Prelude.{◌≡◌, true, [], ◌≤◌, ◌<◌, eqb, length};
ghost use Rattle.std.proofs.lemmas.List.Edits.{sets};
ghost use Rattle.sorting.specs.Sorting.{sorted};
ghost use Rattle.gossip.specs.Notes.{has, numbers_most};
ghost use Rattle.gossip.specs.Step.{wanted};
ghost use Rattle.stores.specs.View.{window_at, stored_at, Window, Windows};
ghost use Rattle.stores.specs.Marks.{Seen, Given, Flags, Next};

use crate::{ALL_WINDOWS, number, size};
use marks::{WORDS, bucket, is_marked, mark};
use sorting::{place_of, sort};

// How many numbers are given at most.
const GIVEN: usize = 192;

// The numbers, in ascending order.
fn sort_given(numbers: &[u64], rising: &mut [u64])
    requires { (length numbers.now ≤ numbers_most) × (length rising.old ≡ length numbers.now) }
    ensures { rising.new ≡ sorted numbers.now }
{
    let mut spare = [0u64; GIVEN];
    rising.copy_from_slice(numbers);
    sort(rising, &mut spare);
}

// Marks the buckets of a list's numbers.
fn mark_all(numbers: &[u64], seen: &mut [u64; WORDS])
    requires { Seen [] seen.old }
    ensures { Seen numbers.now seen.new }
{
    for &n in numbers {
        mark(seen, bucket(n));
    }
}

// Flags m, if it is one of the numbers.
fn flag(rising: &[u64], m: u64, known: &mut [bool; GIVEN])
    requires { Given rising.now known.old }
    ensures { Flags (eqb m) rising.now known.old known.new }
{
    let at = place_of(rising, m);
    if at == rising.len() {
        return;
    }
    known[at] |= m == rising[at];
}

// The same, where m's bucket is one of theirs: else it is none of them.
fn flag_where(rising: &[u64], given: &[u64; WORDS], m: u64, known: &mut [bool; GIVEN])
    requires { Given rising.now known.old × Seen rising.now given.now }
    ensures { Flags (eqb m) rising.now known.old known.new }
{
    if !is_marked(given, bucket(m)) {
        return;
    }
    flag(rising, m, known);
}

// Flags those that a window has.
fn flag_window(
    cells: &[u64],
    p: usize,
    rising: &[u64],
    given: &[u64; WORDS],
    known: &mut [bool; GIVEN],
)
    requires { Window cells.now p × (Given rising.now known.old × Seen rising.now given.now) }
    ensures { Flags (λ n. has n (window_at cells.now p)) rising.now known.old known.new }
{
    let n = size(cells, p);
    for k in 0..n {
        flag_where(rising, given, number(cells, p, k), known);
    }
}

// Flags those that some topic stores.
fn flag_stored(cells: &[u64], rising: &[u64], known: &mut [bool; GIVEN])
    requires { Windows cells.now × Given rising.now known.old }
    ensures { Flags (stored_at cells.now) rising.now known.old known.new }
{
    let mut given: [u64; WORDS] = [0; WORDS];
    mark_all(rising, &mut given);
    for p in 0..ALL_WINDOWS {
        flag_window(cells, p, rising, &given, known);
    }
}

// A number goes behind the others of the list, unless its flag is up, as it is then; how many there are then. The list is the caller's, of
// fixed length and with no heap behind it, so how much of it is in use goes beside it.
fn next_want(
    rising: &[u64],
    n: u64,
    known: &mut [bool; GIVEN],
    list: &mut [u64],
    size: usize,
) -> usize
    requires { Given rising.now known.old × ((has n rising.now ≡ true) × (size < length list.old)) }
    ensures { Next rising.now n size known.old known.new list.old list.new result }
{
    let at = place_of(rising, n);
    if known[at] {
        return size;
    }
    known[at] = true;
    list[size] = n;
    size + 1
}

// Those of the given numbers that no topic stores, each once, in order; how many. A list as long as theirs is lent to sort them.
fn want_by(cells: &[u64], numbers: &[u64], rising: &mut [u64], list: &mut [u64]) -> usize
    requires { Windows cells.now × ((length numbers.now ≤ numbers_most)
        × ((length rising.old ≡ length numbers.now) × (numbers_most ≤ length list.old))) }
    ensures { (list.new ≡ sets list.old 0 (wanted (stored_at cells.now) [] numbers.now))
        × (result ≡ length (wanted (stored_at cells.now) [] numbers.now)) }
{
    sort_given(numbers, rising);
    let mut known = [false; GIVEN];
    flag_stored(cells, rising, &mut known);
    let mut size: usize = 0;
    for &n in numbers {
        size = next_want(rising, n, &mut known, list, size);
    }
    size
}

pub fn want(cells: &[u64], numbers: &[u64], list: &mut [u64]) -> usize
    requires { Windows cells.now × ((length numbers.now ≤ numbers_most) × (numbers_most ≤ length list.old)) }
    ensures { (list.new ≡ sets list.old 0 (wanted (stored_at cells.now) [] numbers.now))
        × (result ≡ length (wanted (stored_at cells.now) [] numbers.now)) }
{
    let n = numbers.len();
    let mut rising = [0u64; GIVEN];
    want_by(cells, numbers, &mut rising[..n], list)
}
