// The rules of 01 as definitions (specs/): one data type of calls, and what each call answers and leaves. The code that keeps to them is
// crate router. Here stand only the types that both speak of.
#![tactic(auto)]

use records::{Peer, TopicRecord};
use score::Why;

// What a call answers. A definition (specs/Reply.antt) gives 01's number and values of each.
// One enum and no Result: number_of, refuses and changes (specs/Reply.antt) and the theorems on every call are tables over these twelve.
#[derive(Clone, Copy)]
pub enum Answer {
    // 0: done, with the number of actions
    Done(usize),
    // 0 of a score call, with the score and its parts
    Scored(Why),
    // 1: the time is earlier than the last accepted one
    Early,
    // 2: an argument is outside its range
    OutOfRange,
    // 3: no connected record holds the id
    NotConnected,
    // 4: connect of a connected id
    AlreadyConnected,
    // 5: no slot to give
    NoSlot,
    // 6: the protocol name is not known
    UnknownProtocol,
    // 7: not a permutation of the slots
    NotPermutation,
    // 8: the action list is too short
    ListShort,
    // 11: ignored, only the clock moves
    Ignored,
    // 12: the table handed in is no router's
    NotRouter,
}

// What a call sees of the peer that sent it, at the call's start: its record, and what its score says of it.
#[derive(Clone, Copy)]
pub struct Sender {
    pub peer: Peer,
    pub graylisted: bool,
    pub negative: bool,
}

// What a call of one peer in one topic sees. Its case is decided by this alone.
#[derive(Clone, Copy)]
pub struct Seen {
    pub sender: Sender,
    pub joined: bool,
    pub topic: TopicRecord,
}

// The nine cases of a GRAFT that comes in, in 01's order.
#[derive(Clone, Copy)]
pub enum GraftCase {
    NotJoined,
    Graylisted,
    AlreadyMember,
    Explicit,
    InBackoff,
    Negative,
    NotSubscribed,
    Full,
    Enters,
}
