// An action as three numbers of a lent list.
ghost use Rattle.std.specs.Prelude.{◌≡◌, ◌∷◌, [], ◌+◌, ◌*◌, ◌≤◌, length};
ghost use Rattle.std.proofs.lemmas.List.Edits.{sets};

// An action's kinds: numbers, since the lent list that they are written into is the C interface's.
pub const GRAFT: u32 = 1;

pub const PRUNE: u32 = 2;

// Writes an action that stands after n others.
pub fn put(actions: &mut [u32], n: usize, kind: u32, id: u64, seconds: u64)
    requires n_in_bounds { 3 * n + 3 ≤ length actions.old }
    requires id_bound { id ≤ 4294967295 }
    requires seconds_bound { seconds ≤ 4294967295 }
    ensures { actions.new ≡ sets actions.old (3 * n) (kind ∷ id ∷ seconds ∷ []) }
{
    let at = 3 * n;
    actions[at] = kind;
    actions[at + 1] = id as u32;
    actions[at + 2] = seconds as u32;
}
