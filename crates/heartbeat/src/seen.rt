// What maintenance sees of a table, as at the call's start: sets of slots as words.
ghost use Rattle.std.specs.Prelude.{◌≡◌, List, ℕ, ◌<◌, eqb, length};
ghost use Rattle.records.specs.Records.{slot_count, peer_in};
ghost use Rattle.layout.specs.View.{cell_count, state_of};
ghost use Rattle.words.specs.Words.{bits_of};
ghost use Rattle.sets.specs.Sets.{at, by_slot};
ghost use Rattle.mesh.specs.Words.{view_of};
ghost use Rattle.effects.specs.Effects.{is_member};
ghost use Rattle.effects.specs.Lent.{AtTopic};
ghost use Rattle.rules.specs.Step.{past_slack, is_candidate, degrees_in, view_in};
ghost use Rattle.peer_score.specs.Standing.{Standing, TopicStanding};
ghost use Rattle.heartbeat.specs.Ready.{is_eligible, is_free, ScoredAt, ScoredAll};

use effects::slots::load_magnitude;
use mesh::{Degrees, Seen, ZERO_SCORE};
use records::param;
use sets::{both, except};
use words::slots::Slots;
use words::{WORDS, put};

// The members of a topic's mesh.
pub fn members(table: &[u64], topic: usize) -> [u64; WORDS]
    requires { AtTopic table.now topic }
    ensures { bits_of result ≡ by_slot slot_count (is_member (state_of table.now) topic) }
{
    layout::load_members(table, topic)
}

// The peers whose connection we opened.
pub fn outbound(table: &[u64]) -> [u64; WORDS]
    requires { length table.now ≡ cell_count }
    ensures { bits_of result ≡ by_slot slot_count (λ s. eqb (peer_in (state_of table.now) s).outbound 1) }
{
    layout::load_outbound(table)
}

// How long after a backoff's end we send no GRAFT of ours: the neighbour may count it from a later moment.
const GRAFT_SLACK: u64 = 1000;

// Whether a backoff and its slack are over, or it was never set.
fn past_slack(end: u64, time: u64) -> bool
    ensures { result ≡ past_slack end time }
{
    if end == 0 {
        return true;
    }
    if time < GRAFT_SLACK {
        return false;
    }
    end <= time - GRAFT_SLACK
}

// Who may be grafted but for score and backoff: connected, subscribed, not explicit and no member.
pub fn eligible(table: &[u64], topic: usize) -> [u64; WORDS]
    requires { TopicStanding table.now topic }
    ensures { (s : ℕ) → s < slot_count → at (bits_of result) s ≡ is_eligible (state_of table.now) topic s }
{
    let connected = layout::load_connected(table);
    let subscribed = layout::load_subscribed(table, topic);
    let explicit = layout::load_explicit(table);
    let members = layout::load_members(table, topic);
    except(except(both(connected, subscribed), explicit), members)
}

// Whether an eligible peer, with this score, is a candidate.
pub fn is_free(table: &[u64], time: u64, topic: usize, slot: usize, score: u64) -> bool
    requires { ScoredAt table.now topic slot score }
    ensures { result ≡ is_free (state_of table.now) time topic slot }
{
    let free = past_slack(layout::load_end(table, slot, topic), time);
    (ZERO_SCORE <= score) & free
}

// The candidates of a topic: the eligible, each asked for score and backoff.
pub fn candidates(table: &[u64], time: u64, topic: usize, scores: &[u64]) -> [u64; WORDS]
    requires { ScoredAll table.now scores.now topic }
    ensures { bits_of result ≡ by_slot slot_count (is_candidate (state_of table.now) time topic) }
{
    let all = eligible(table, topic);
    let mut r = all;
    for slot in Slots::of(all) {
        let free = is_free(table, time, topic, slot, scores[slot]);
        let more = put(r, slot as u64, free);
        r = more;
    }
    r
}

// The parameters that maintenance goes by.
pub fn degrees(table: &[u64]) -> Degrees
    requires { Standing table.now }
    ensures { result ≡ degrees_in (state_of table.now) }
{
    Degrees {
        lo: load_magnitude(table, param::D_LO),
        d: load_magnitude(table, param::D),
        hi: load_magnitude(table, param::D_HI),
        out: load_magnitude(table, param::D_OUT),
        score: load_magnitude(table, param::D_SCORE),
        threshold: ZERO_SCORE + load_magnitude(table, param::OPPORTUNISTIC_THRESHOLD) * 1000000,
    }
}

// All that maintenance sees, beside the scores and the permutation.
pub fn view(table: &[u64], time: u64, topic: usize, ask: u64, scores: &[u64]) -> Seen
    requires { ScoredAll table.now scores.now topic }
    ensures { (order : List ℕ) →
        view_of result scores.now order ≡ view_in (state_of table.now) time topic ask order }
{
    Seen {
        members: members(table, topic),
        candidates: candidates(table, time, topic, scores),
        outbound: outbound(table),
        ask: ask == 1,
    }
}
