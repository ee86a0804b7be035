// A reply in text. The text itself is fixed in specs/Lines.antt; the caller shows that there is room: 42 bytes for two numbers, 44 for an
// action, 134 for a score.
ghost use Rattle.std.specs.Prelude.{[], ◌∷◌, ◌+◌, ◌*◌, ◌≤◌, length};
ghost use Rattle.text.specs.Text.{Stored};
ghost use Rattle.rules.specs.Reply.{actions_of};
ghost use Rattle.trace_events.specs.Lines.{space, pair_line, action_line, actions_text, part_text, three_text, why_line, score_line};
ghost use Rattle.trace_events.specs.Lines.{line_room, reply_text};
ghost use Rattle.rules.specs.Step.{action_room};
ghost use Rattle.records.specs.Records.{slot_count};

use answers::{actions_of, number_of};
use rules::Answer;
use score::Why;
use text::{put_byte, put_decimal, put_signed};

// How many bytes one event may print.
pub const LINE_ROOM: usize = 16384;

// The lines go to a lent buffer, as nothing is allocated; `write!` would not say how many bytes a line takes, as these contracts do.
// Two numbers on a line; the place after it.
pub fn put_pair(out: &mut [u8], at: usize, a: u64, b: u64) -> usize
    requires { at + 42 ≤ length out.old }
    ensures { Stored out.old at (pair_line a b) result out.new × (result ≤ at + 42) }
{
    let mut k = put_decimal(out, at, a);
    k = put_byte(out, k, b' ');
    k = put_decimal(out, k, b);
    put_byte(out, k, b'\n')
}

fn put_letter(out: &mut [u8], at: usize, letter: u8) -> usize
    requires { at + 2 ≤ length out.old }
    ensures { Stored out.old at (letter ∷ space ∷ []) result out.new }
{
    let k = put_byte(out, at, letter);
    put_byte(out, k, b' ')
}

// "G id" or "P id seconds".
pub fn put_action(out: &mut [u8], at: usize, kind: u32, id: u32, seconds: u32) -> usize
    requires { at + 44 ≤ length out.old }
    ensures { Stored out.old at (action_line kind id seconds) result out.new × (result ≤ at + 44) }
{
    if kind == 1 {
        let mut k = put_letter(out, at, b'G');
        k = put_decimal(out, k, id as u64);
        return put_byte(out, k, b'\n');
    }
    let k = put_letter(out, at, b'P');
    put_pair(out, k, id as u64, seconds as u64)
}

pub fn put_actions(out: &mut [u8], at: usize, actions: &[u32], n: usize) -> usize
    requires { (at + 44 * n ≤ length out.old) × (3 * n ≤ length actions.now) }
    ensures { Stored out.old at (actions_text n actions.now) result out.new × (result ≤ at + 44 * n) }
{
    let mut k = at;
    for i in 0..n {
        k = put_action(
            out,
            k,
            actions[3 * i],
            actions[3 * i + 1],
            actions[3 * i + 2],
        );
    }
    k
}

// A number with its sign, and the byte after it.
fn put_part(out: &mut [u8], at: usize, n: i64, after: u8) -> usize
    requires { at + 22 ≤ length out.old }
    ensures { Stored out.old at (part_text n after) result out.new × (result ≤ at + 22) }
{
    let k = put_signed(out, at, n);
    put_byte(out, k, after)
}

// Three numbers with spaces between them, and the byte after them.
fn put_three(out: &mut [u8], at: usize, a: i64, b: i64, c: i64, after: u8) -> usize
    requires { at + 66 ≤ length out.old }
    ensures { Stored out.old at (three_text a b c after) result out.new × (result ≤ at + 66) }
{
    let mut k = put_part(out, at, a, b' ');
    k = put_part(out, k, b, b' ');
    put_part(out, k, c, after)
}

// "S topics capped p5 p6 p7 score".
fn put_why(out: &mut [u8], at: usize, w: Why) -> usize
    requires { at + 134 ≤ length out.old }
    ensures { Stored out.old at (why_line w) result out.new × (result ≤ at + 134) }
{
    let mut k = put_letter(out, at, b'S');
    k = put_three(out, k, w.topics, w.capped, w.p5, b' ');
    put_three(out, k, w.p6, w.p7, w.score, b'\n')
}

pub fn put_score(out: &mut [u8], at: usize, a: Answer) -> usize
    requires { at + 134 ≤ length out.old }
    ensures { Stored out.old at (score_line a) result out.new × (result ≤ at + 134) }
{
    let Answer::Scored(w) = a else {
        return at;
    };
    put_why(out, at, w)
}

// Answer and action count, then one line an action or score.
pub fn put_reply(out: &mut [u8], a: Answer, actions: &[u32]) -> usize
    requires { (line_room ≤ length out.old) × (actions_of a ≤ slot_count) × (action_room ≤ length actions.now) }
    ensures { Stored out.old 0 (reply_text a actions.now) result out.new × (result ≤ line_room) }
{
    let n = actions_of(a);
    let mut k = put_pair(out, 0, number_of(a), n as u64);
    k = put_actions(out, k, actions, n);
    put_score(out, k, a)
}
