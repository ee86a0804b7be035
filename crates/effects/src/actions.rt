// Actions, three numbers each, into the lent list.
ghost use Rattle.std.specs.Prelude.{◌≡◌, [], ◌∷◌, cond, ◌+◌, ◌≤◌, eqb, length};
ghost use Rattle.std.proofs.lemmas.List.Edits.{sets};
ghost use Rattle.effects.specs.Actions.{prune_of, numbers_of};
ghost use Rattle.effects.specs.Lent.{PruneFits};

use records::Peer;

// The number of a PRUNE in the list that C reads.
const PRUNE: u32 = 2;

// The seconds that a peer is told: none at version 1.0.0.
fn told(version: u64, seconds: u32) -> u32
    ensures { result ≡ cond (eqb version 0) 0 seconds }
{
    if version == 0 { 0 } else { seconds }
}

fn put_numbers(actions: &mut [u32], at: usize, kind: u32, id: u32, seconds: u32)
    requires { at + 3 ≤ length actions.old }
    ensures { actions.new ≡ sets actions.old at (kind ∷ id ∷ seconds ∷ []) }
{
    actions[at] = kind;
    actions[at + 1] = id;
    actions[at + 2] = seconds;
}

// A PRUNE of a peer, and the place after it.
pub fn put_prune(actions: &mut [u32], at: usize, p: Peer, seconds: u64) -> usize
    requires { PruneFits actions.old at p seconds }
    ensures { (result ≡ at + 3)
        × (actions.new ≡ sets actions.old at (numbers_of (prune_of p seconds ∷ []))) }
{
    let id = p.id as u32;
    let length = told(p.version, seconds as u32);
    put_numbers(actions, at, PRUNE, id, length);
    at + 3
}
