// A whole recorded list of calls, run on a fresh router: the events of a trace's bytes, one after the other. Its promise joins the calls to
// demand 3: the table that is left is the rules' state after the list, of which demand 3 holds.
#![tactic(auto)]

ghost use Rattle.trace_run.specs.Recorded.{Runs};

use layout::CELLS;
use lookup::FreshError;
use params::Params;
use trace_events::Edition;

// Makes a fresh router with these parameters, and calls the events of the bytes, in an edition, up to the first that is unknown, malformed
// or cut short, or as many as there is room for answers: the lent list `told` takes one number for each. All calls are lent the same action
// list, of any length.
pub fn run(
    edition: Edition,
    params: Params,
    s: &[u8],
    table: &mut [u64; CELLS],
    actions: &mut [u32],
    told: &mut [u64],
) -> Result<(usize, usize), FreshError>
    ensures { Runs edition params s.now result table.old table.new actions.old
        actions.new told.old told.new }
{
    router::fresh(params, table)?;
    let mut at: usize = 0;
    for calls in 0..told.len() {
        let Ok((next, a)) = trace_step::perform(table, edition, s, at, actions) else {
            return Ok((at, calls));
        };
        told[calls] = answers::code(a);
        at = next;
    }
    Ok((at, told.len()))
}
