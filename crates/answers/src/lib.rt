// Answers as numbers: 01's number of an answer, how many actions it has, both as one number for a host, and a score with its parts.
#![tactic(auto)]

ghost use Rattle.std.specs.Prelude.{◌≡◌, ◌≤◌};
ghost use Rattle.rules.specs.Reply.{number_of, actions_of};
ghost use Rattle.answers.specs.Answers.{packed as packedOf, answer_code, why_numbers, why_or};
ghost use Rattle.records.specs.Records.{slot_count};

use rules::Answer;
use score::Why;

// 01's number of an answer. A function and no From: `code` below turns an answer into a u64 too, and u64::from would not say which is meant.
pub fn number_of(a: Answer) -> u64
    ensures { result ≡ number_of a }
{
    match a {
        Answer::Done(_) | Answer::Scored(_) => 0,
        Answer::Early => 1,
        Answer::OutOfRange => 2,
        Answer::NotConnected => 3,
        Answer::AlreadyConnected => 4,
        Answer::NoSlot => 5,
        Answer::UnknownProtocol => 6,
        Answer::NotPermutation => 7,
        Answer::ListShort => 8,
        Answer::Ignored => 11,
        Answer::NotRouter => 12,
    }
}

// How many actions it has.
pub fn actions_of(a: Answer) -> usize
    ensures { result ≡ actions_of a }
{
    if let Answer::Done(n) = a { n } else { 0 }
}

// 01's number in the low byte, the value above it.
pub fn packed(number: u64, value: u64) -> u64
    requires { (number ≤ 255) × (value ≤ 4294967295) }
    ensures { result ≡ packedOf number value }
{
    number + 256 * value
}

// An answer as one number.
pub fn code(a: Answer) -> u64
    requires { actions_of a ≤ slot_count }
    ensures { result ≡ answer_code a }
{
    packed(number_of(a), actions_of(a) as u64)
}

// A score's five parts, then the score. Neither type is of this crate, so that no From can stand here.
fn why_numbers(w: Why) -> [i64; 6]
    ensures { result ≡ why_numbers w }
{
    [w.topics, w.capped, w.p5, w.p6, w.p7, w.score]
}

// The score's parts and the score in an answer, or what stood there.
pub fn why_or(a: Answer, stood: [i64; 6]) -> [i64; 6]
    ensures { result ≡ why_or a stood }
{
    match a {
        Answer::Scored(w) => why_numbers(w),
        _ => stood,
    }
}
