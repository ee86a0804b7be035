// Converts parameters between our own form in bytes and the other supplier's. The first byte of standard input is the mode, the others are
// what is converted; the answer goes to standard output, and is fixed in specs/Output.antt:
//   i  the supplier's bytes in numbers: `10 PLACE`, `9 INDEX`, or `0` and the 147 numbers, one to a line
//   e  our own bytes in the supplier's entries: `10 PLACE`, `9 INDEX`, or `0` and 147 lines of a kind and eight bytes in hexadecimal
//   I  the supplier's bytes as our own, nothing where they are refused
//   E  our own bytes as the supplier's, nothing where they are refused
// Any other mode, and none, is answered by `2 0`.
#![tactic(auto)]

ghost use Rattle.std.specs.Prelude.{◌≡◌, List, [], ◌∷◌, ◌++◌, ℕ, ◌+◌, ◌≤◌, ◌<◌, length, take, drop};
ghost use Rattle.records.specs.Records.{param_count};
ghost use Rattle.text.specs.Text.{Stored};
ghost use Rattle.params.specs.Check.{first_broken};
ghost use Rattle.params_bytes.specs.Read.{read_of};
ghost use Rattle.supplier_params.specs.Forms.{supplier_bytes};
ghost use Rattle.supplier_params.specs.Import.{import_of, entry_at};
ghost use Rattle.supplier.specs.Output.{hex_digit, hex_text, entry_text, entries_text, done_text, import_text, entries_output, export_text};
ghost use Rattle.supplier.specs.Output.{unless, import_bytes, export_bytes, output_of, Room};
ghost use Rattle.params_bytes.specs.Write.{form_of};
ghost use Rattle.supplier_params.specs.Export.{broken_first, bytes_of};

use limits::NUMBERS;
use params::Params;
use params_bytes::{ReadError, WriteError};
use std::io;
use std::io::{Read, Write};

// A digit of base 16, by hand as in crate text: the contracts name each byte of the buffer.
fn digit(n: u8) -> u8
    requires { n < 16 }
    ensures { result ≡ hex_digit n }
{
    if n < 10 { 48 + n } else { 87 + n }
}

// A byte in base 16.
fn put_hex(buf: &mut [u8], at: usize, b: u8) -> usize
    requires { at + 2 ≤ length buf.old }
    ensures { Stored buf.old at (hex_text (b ∷ [])) result buf.new }
{
    let high = digit(b / 16);
    let low = digit(b % 16);
    let next = text::put_byte(buf, at, high);
    text::put_byte(buf, next, low)
}

// The eight bytes from a place on, in base 16.
fn put_eight(buf: &mut [u8], at: usize, s: &[u8], from: usize) -> usize
    requires { (at + 16 ≤ length buf.old) × (from + 8 ≤ length s.now) }
    ensures { Stored buf.old at (hex_text (take 8 (drop from s.now))) result buf.new × (result ≡ at + 16) }
{
    let mut next = at;
    for k in 0..8 {
        next = put_hex(buf, next, s[from + k]);
    }
    next
}

fn wide(x: u8) -> u64
    ensures { (result ≡ x) × (result < 256) }
{
    x as u64
}

// The line of entry i.
fn put_entry(buf: &mut [u8], at: usize, s: &[u8], i: usize) -> usize
    requires { (at + 21 ≤ length buf.old) × (length s.now ≡ supplier_bytes) × (i < param_count) }
    ensures { Stored buf.old at (entry_text (entry_at s.now i)) result buf.new × (result ≤ at + 21) }
{
    let kind = wide(s[9 * i]);
    let space = text::put_decimal(buf, at, kind);
    let first = text::put_byte(buf, space, b' ');
    let end = put_eight(buf, first, s, 9 * i + 1);
    text::put_byte(buf, end, b'\n')
}

// The lines of all entries.
fn put_entries(buf: &mut [u8], at: usize, s: &[u8]) -> usize
    requires { (at + 3087 ≤ length buf.old) × (length s.now ≡ supplier_bytes) }
    ensures { Stored buf.old at (entries_text s.now) result buf.new × (result ≤ at + 3087) }
{
    let mut next = at;
    for i in 0..NUMBERS {
        next = put_entry(buf, next, s, i);
    }
    next
}

// The line `0`, at the front.
fn put_done(buf: &mut [u8]) -> usize
    requires { 2 ≤ length buf.old }
    ensures { Stored buf.old 0 done_text result buf.new × (result ≡ 2) }
{
    let end = text::put_byte(buf, 0, b'0');
    text::put_byte(buf, end, b'\n')
}

// What importing `bytes` comes to, in numbers.
fn put_import(buf: &mut [u8], bytes: &[u8]) -> usize
    requires { 4096 ≤ length buf.old }
    ensures { Stored buf.old 0 (import_text (import_of bytes.now)) result buf.new × (result ≤ 4096) }
{
    match supplier_params::import(bytes) {
        Ok((all, _)) => {
            let at = put_done(buf);
            param_text::put_numbers(buf, at, all.numbers)
        }
        Err(ReadError::Malformed(place)) => param_text::put_head(buf, 10, place),
        Err(ReadError::Broken(i)) => param_text::put_head(buf, 9, i),
    }
}

// What exporting parameters comes to, in entries; `page` is written over.
fn put_exported(buf: &mut [u8], page: &mut [u8], all: Params) -> usize
    requires { (4096 ≤ length buf.old) × (supplier_bytes ≤ length page.old) }
    ensures { Stored buf.old 0 (entries_output (broken_first all.numbers) all.numbers) result buf.new
        × (result ≤ 4096) }
{
    match supplier_params::export(all, page) {
        Ok(n) => {
            let at = put_done(buf);
            put_entries(buf, at, &page[..n])
        }
        Err(WriteError::Outside(i)) => param_text::put_head(buf, 9, i),
        Err(WriteError::Short) => 0,
    }
}

// What exporting the parameters in `bytes` comes to, in entries; `page` is written over.
fn put_export(buf: &mut [u8], page: &mut [u8], bytes: &[u8]) -> usize
    requires { (4096 ≤ length buf.old) × (supplier_bytes ≤ length page.old) }
    ensures { Stored buf.old 0 (export_text (read_of bytes.now)) result buf.new × (result ≤ 4096) }
{
    match params_bytes::read(bytes) {
        Ok((all, _)) => put_exported(buf, page, all),
        Err(ReadError::Malformed(place)) => param_text::put_head(buf, 10, place),
        Err(ReadError::Broken(i)) => param_text::put_head(buf, 9, i),
    }
}

// Parameters as our own bytes, nothing where they are broken.
fn write_own(buf: &mut [u8], all: Params) -> usize
    requires { 4096 ≤ length buf.old }
    ensures { Stored buf.old 0 (unless (first_broken all) (form_of all)) result buf.new
        × (result ≤ 4096) }
{
    match params_bytes::write(all, buf) {
        Ok(n) => n,
        Err(_) => 0,
    }
}

// Parameters as the supplier's bytes, nothing where they are broken by 01's rules.
fn write_theirs(buf: &mut [u8], all: Params) -> usize
    requires { 4096 ≤ length buf.old }
    ensures { Stored buf.old 0 (unless (broken_first all.numbers) (bytes_of all.numbers)) result buf.new
        × (result ≤ 4096) }
{
    match supplier_params::export(all, buf) {
        Ok(n) => n,
        Err(_) => 0,
    }
}

// What the supplier's `bytes` are as our own.
fn write_import(buf: &mut [u8], bytes: &[u8]) -> usize
    requires { 4096 ≤ length buf.old }
    ensures { Stored buf.old 0 (import_bytes (import_of bytes.now)) result buf.new × (result ≤ 4096) }
{
    match supplier_params::import(bytes) {
        Ok((all, _)) => write_own(buf, all),
        Err(_) => 0,
    }
}

// What our own `bytes` are as the supplier's.
fn write_export(buf: &mut [u8], bytes: &[u8]) -> usize
    requires { 4096 ≤ length buf.old }
    ensures { Stored buf.old 0 (export_bytes (read_of bytes.now)) result buf.new × (result ≤ 4096) }
{
    match params_bytes::read(bytes) {
        Ok((all, _)) => write_theirs(buf, all),
        Err(_) => 0,
    }
}

// What the input comes to: its mode and the bytes after it.
fn answer(buf: &mut [u8], page: &mut [u8], mode: u8, bytes: &[u8]) -> usize
    requires { (4096 ≤ length buf.old) × (supplier_bytes ≤ length page.old) }
    ensures { Stored buf.old 0 (output_of mode bytes.now) result buf.new × (result ≤ 4096) }
{
    match mode {
        b'i' => put_import(buf, bytes),
        b'e' => put_export(buf, page, bytes),
        b'I' => write_import(buf, bytes),
        b'E' => write_export(buf, bytes),
        _ => param_text::put_head(buf, 2, 0),
    }
}

// The same where `rest` further bytes follow those that are given: only how many they are can matter, to the length that an import names.
fn answer_all(buf: &mut [u8], page: &mut [u8], mode: u8, bytes: &[u8], rest: usize) -> usize
    requires { Room buf.old page.old bytes.now rest }
    ensures { ((more : List ℕ) → length more ≡ rest →
        Stored buf.old 0 (output_of mode (bytes.now ++ more)) result buf.new) × (result ≤ 4096) }
{
    if (mode == b'i') & (0 < rest) {
        return param_text::put_head(buf, 10, bytes.len() + rest);
    }
    answer(buf, page, mode, bytes)
}

// Counts what is left of the input. A proved loop has to end, and nothing says that the input does: the turns count down from a number
// that no run uses up.
fn count_rest(input: &mut impl Read, page: &mut [u8]) -> usize
    ensures { result ≤ 18014398509481984 }
{
    let mut turns: usize = 4398046511104;
    let mut total: usize = 0;
    while 0 < turns {
        let n = text::read_full(input, page);
        if n == 0 {
            break;
        }
        if 4096 < n {
            break;
        }
        total += n;
        turns -= 1;
    }
    total
}

// What the front of the input comes to, and what may follow it.
fn reply(rest_of: &mut impl Read, buf: &mut [u8], page: &mut [u8], input: &[u8]) -> usize
    requires { (4096 ≤ length buf.old) × (supplier_bytes ≤ length page.old) × (length input.now ≤ 65536) }
    ensures { result ≤ 4096 }
{
    let n = input.len();
    if n == 0 {
        return param_text::put_head(buf, 2, 0);
    }
    let mode = input[0];
    if n < 65536 {
        return answer_all(buf, page, mode, &input[1..], 0);
    }
    let rest = count_rest(rest_of, page);
    answer_all(buf, page, mode, &input[1..], rest)
}

fn main(rt: HostRuntime) -> io::Result<()> {
    let mut input = [0u8; 65536];
    let mut out = [0u8; 4096];
    let mut page = [0u8; 4096];
    let mut reader = rt.reader();
    let n = text::read_full(&mut reader, &mut input);
    let end = reply(&mut reader, &mut out, &mut page, &input[..n]);
    io::writer(&rt).write_all(&out[..end])
}
