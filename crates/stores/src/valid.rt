// Test 12 of a topic's store: at most 64 numbers a heartbeat, none twice, none at all in a topic that is not joined. A number is compared
// with those before it only where one of them fell into the same bucket.
ghost use Rattle.std.specs.Prelude.{◌≡◌, true, not, ◌+◌, ◌*◌, ◌≤◌, ◌<◌, length, get_or};
ghost use Rattle.records.specs.Records.{topic_count};
ghost use Rattle.gossip.specs.Notes.{has, window_count};
ghost use Rattle.gossip.specs.Valid.{all, none, flat, apart, window_ok, store_ok};
ghost use Rattle.stores.specs.View.{stores_cells, count_at, five_at, store_at, Store};
ghost use Rattle.stores.specs.Marks.{windows_of, before, up_to, Seen, Looking, Walking};

use crate::{WINDOW_MOST, WINDOWS, is_in, is_in_window, number, size, start};
use gossip::cells::are_zero;
use marks::{WORDS, bucket, is_marked, mark};

// Whether no window of a topic has a number.
fn is_vacant(cells: &[u64], t: usize) -> bool
    requires { (length cells.now ≡ stores_cells) × (t < topic_count) }
    ensures { result ≡ none (flat (five_at cells.now t)) }
{
    let p = t * WINDOWS;
    are_zero(&cells[p..p + WINDOWS])
}

// Whether none has too many.
fn is_within(cells: &[u64], t: usize) -> bool
    requires { (length cells.now ≡ stores_cells) × (t < topic_count) }
    ensures { result ≡ all window_ok (five_at cells.now t) }
{
    let p = t * WINDOWS;
    cells[p..p + WINDOWS]
        .iter()
        .all(|&count| count <= WINDOW_MOST as u64)
}

// Whether a number is among the first k of window w, or in a window before it.
fn is_earlier(cells: &[u64], t: usize, w: usize, k: usize, n: u64) -> bool
    requires { Store cells.now t × ((w < window_count) × (k ≤ count_at cells.now (t * window_count + w))) }
    ensures { result ≡ has n (up_to cells.now t w k) }
{
    for v in 0..w {
        if is_in_window(cells, t * WINDOWS + v, n) {
            return true;
        }
    }
    let at = start(t * WINDOWS + w);
    let end = at + k;
    is_in(&cells[at..end], n)
}

// Whether number k of window w is not among those before it, which have marked their buckets; then it has marked its own.
fn next_new(cells: &[u64], seen: &mut [u64; WORDS], t: usize, w: usize, k: usize) -> bool
    requires { Looking cells.now seen.old t w k }
    ensures { (result ≡ not (has (get_or (windows_of cells.now t w) k 0) (up_to cells.now t w k)))
        × Seen (up_to cells.now t w (k + 1)) seen.new }
{
    let n = number(cells, t * WINDOWS + w, k);
    let b = bucket(n);
    let known = is_marked(seen, b);
    mark(seen, b);
    !known || !is_earlier(cells, t, w, k, n)
}

// Whether a window's numbers are apart from each other and from those of the windows before it.
fn window_apart(cells: &[u64], seen: &mut [u64; WORDS], t: usize, w: usize) -> bool
    requires { Walking cells.now seen.old t w }
    ensures { (result ≡ apart (before cells.now t (w + 1)))
        × (result ≡ true → Seen (before cells.now t (w + 1)) seen.new) }
{
    let n = size(cells, t * WINDOWS + w);
    for k in 0..n {
        if !next_new(cells, seen, t, w, k) {
            return false;
        }
    }
    true
}

// Whether no number stands twice in a topic's windows.
fn all_apart(cells: &[u64], t: usize) -> bool
    requires { Store cells.now t }
    ensures { result ≡ apart (flat (five_at cells.now t)) }
{
    let mut seen: [u64; WORDS] = [0; WORDS];
    for w in 0..WINDOWS {
        if !window_apart(cells, &mut seen, t, w) {
            return false;
        }
    }
    true
}

// Whether a topic's store is right.
pub fn store_ok(cells: &[u64], t: usize, joined: bool) -> bool
    requires { (length cells.now ≡ stores_cells) × (t < topic_count) }
    ensures { result ≡ store_ok joined (store_at cells.now t) }
{
    if is_vacant(cells, t) {
        return true;
    }
    if !joined {
        return false;
    }
    if !is_within(cells, t) {
        return false;
    }
    all_apart(cells, t)
}
