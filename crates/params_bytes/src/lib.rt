// The parameters in bytes (01, "The sheet"): 147 numbers, each by its code in seven-bit groups, behind the front that tells their edition
// (02, order 14). Reading and writing undo each other (specs/RoundTrip.antt).
#![tactic(auto)]

ghost use Rattle.std.specs.Prelude.{◌≡◌, ℕ, ◌+◌, ◌*◌, ◌≤◌, ◌<◌, length};
ghost use Rattle.std.proofs.lemmas.List.Edits.{sets};
ghost use Rattle.varint.specs.Codes.{code_of};
ghost use Rattle.records.specs.Records.{param_count};
ghost use Rattle.limits.specs.Limits.{at};
ghost use Rattle.params.specs.Check.{first_broken};
ghost use Rattle.params_bytes.specs.Read.{edition_at, front_bytes, parse_from, Parses, judged_by, told, read_of, front_at};
ghost use Rattle.params_bytes.specs.Write.{room_for, bytes_of, write_of};

use limits::NUMBERS;
use params::{Edition, Params};

// Why the bytes are no parameters: they are malformed at a place, or the first number or rule that is broken.
#[derive(Clone, Copy)]
pub enum ReadError {
    Malformed(usize),
    Broken(usize),
}

// Why no parameters were written: the buffer is too short for any, or the first number or rule that is broken.
#[derive(Clone, Copy)]
pub enum WriteError {
    Short,
    Outside(usize),
}

// The edition of parameters that begin at a place.
fn edition_at(s: &[u8], at: usize) -> Edition
    requires { at ≤ length s.now }
    ensures { result ≡ edition_at s.now at }
{
    if s.len() - at < 2 {
        return Edition::First;
    }
    if (s[at] == 0) & (s[at + 1] == 2) {
        return Edition::Second;
    }
    Edition::First
}

// How many bytes the front takes.
fn front_length(edition: Edition) -> usize
    ensures { result ≡ length (front_bytes edition) }
{
    match edition {
        Edition::First => 0,
        Edition::Second => 2,
    }
}

// How many bytes written parameters may take.
fn room_for(edition: Edition) -> usize
    ensures { result ≡ room_for edition }
{
    match edition {
        Edition::First => 735,
        Edition::Second => 737,
    }
}

// Read 147 numbers from a place on, into a lent array, and answer the place after them.
fn parse(s: &[u8], from: usize, numbers: &mut [i64; NUMBERS]) -> Result<usize, ReadError>
    ensures { Parses result numbers.new (parse_from param_count s.now from) }
{
    let mut at = from;
    for i in 0..NUMBERS {
        let Some((u, next)) = varint::read_u64(s, at) else {
            return Err(ReadError::Malformed(at));
        };
        numbers[i] = varint::number_of(u);
        at = next;
    }
    Ok(at)
}

// What is answered where the parameters are read and `next` is the place after them.
pub fn judged(params: Params, next: usize) -> Result<(Params, usize), ReadError>
    ensures { result ≡ told (judged_by (first_broken params) params next) }
{
    match params.first_broken() {
        Some(i) => Err(ReadError::Broken(i)),
        None => Ok((params, next)),
    }
}

// Read the parameters that begin at a place, where others may follow them: the parameters and the place after them.
pub fn read_front(s: &[u8], at: usize) -> Result<(Params, usize), ReadError>
    requires { at ≤ length s.now }
    ensures { result ≡ told (front_at s.now at) }
{
    let edition = edition_at(s, at);
    let mut numbers = [0i64; NUMBERS];
    let place = parse(s, at + front_length(edition), &mut numbers)?;
    judged(Params { numbers, edition }, place)
}

// Read the parameters, which the bytes are to hold and nothing else: the parameters and the bytes' length.
pub fn read(s: &[u8]) -> Result<(Params, usize), ReadError>
    ensures { result ≡ told (read_of s.now) }
{
    let edition = edition_at(s, 0);
    let mut numbers = [0i64; NUMBERS];
    let place = parse(s, front_length(edition), &mut numbers)?;
    if place < s.len() {
        return Err(ReadError::Malformed(place));
    }
    judged(Params { numbers, edition }, place)
}

// Write the front to the start of a buffer in which it fits.
fn put_front(edition: Edition, buf: &mut [u8]) -> usize
    requires { room_for edition ≤ length buf.old }
    ensures { (result ≡ length (front_bytes edition)) × (buf.new ≡ sets buf.old 0 (front_bytes edition)) }
{
    match edition {
        Edition::First => 0,
        Edition::Second => {
            buf[0] = 0;
            buf[1] = 2;
            2
        }
    }
}

// Write numbers from a place of a buffer on, in which they fit.
fn put(numbers: &[i64; NUMBERS], buf: &mut [u8], from: usize) -> usize
    requires { (length numbers.now ≡ param_count)
        × (from + 5 * param_count ≤ length buf.old)
        × ((i : ℕ) → i < param_count → code_of (at numbers.now i) < 34359738368) }
    ensures { (result ≡ from + length (bytes_of numbers.now))
        × (buf.new ≡ sets buf.old from (bytes_of numbers.now)) }
{
    let mut at = from;
    for i in 0..NUMBERS {
        let u = varint::code_of(numbers[i]);
        let Some(next) = varint::write_u64(buf, at, u) else {
            return at;
        };
        at = next;
    }
    at
}

// Write the parameters from the start of the buffer, or say why not and leave the buffer.
pub fn write(params: Params, buf: &mut [u8]) -> Result<usize, WriteError>
    ensures { (result ≡ (write_of params buf.old).answer) × (buf.new ≡ (write_of params buf.old).bytes) }
{
    let edition = params.edition;
    if buf.len() < room_for(edition) {
        return Err(WriteError::Short);
    }
    match params.first_broken() {
        Some(i) => Err(WriteError::Outside(i)),
        None => {
            let numbers = params.numbers;
            let from = put_front(edition, buf);
            Ok(put(&numbers, buf, from))
        }
    }
}
