// What is done alike in the regions of the notes, the stores and the replies.
ghost use Rattle.std.specs.Prelude.{◌≡◌, ◌+◌, ◌≤◌, eqb, length, get_or};
ghost use Rattle.index.specs.Index.{every};
ghost use Rattle.gossip.specs.Cells.{Run};

// Whether all cells are 0. It goes to the end, so that no look waits for the one before.
pub fn are_zero(cells: &[u64]) -> bool
    ensures { result ≡ every (length cells.now) (λ k. eqb (get_or cells.now k 0) 0) }
{
    let mut bits = 0;
    for &cell in cells {
        bits |= cell;
    }
    bits == 0
}

// Copies the n cells from `from` on to `to`, also where the two runs overlap. The library's slices have no `copy_within`.
pub fn copy_within(cells: &mut [u64], from: usize, to: usize, n: usize)
    requires { (from + n ≤ length cells.old) × (to + n ≤ length cells.old) }
    ensures { Run cells.old cells.new to n (λ k. get_or cells.old (from + k) 0) }
{
    if to <= from {
        for k in 0..n {
            cells[to + k] = cells[from + k];
        }
    } else {
        for i in (0..n).rev() {
            cells[to + i] = cells[from + i];
        }
    }
}
