// One entry of the other supplier's parameters (02, order 12): a kind, then eight bytes, low first. An entry becomes a number of ours where
// it has its field's kind and stands for a number within the field's limits; a number of ours becomes the eight bytes of its entry.
// The definitions are specs/Factor.antt and specs/Entries.antt. Which field has which kind and limits is for the caller to say.
#![tactic(auto)]

ghost use Rattle.std.specs.Prelude.{◌≡◌, not, ◌∷◌, suc, ◌+◌, ◌^◌, ◌≤◌, ◌<◌, T, eqb, length, take, drop};
ghost use Rattle.std.proofs.lemmas.List.Edits.{sets};
ghost use Rattle.std.specs.Float.{binary64};
ghost use Rattle.std.specs.Float.Ieee.{is_nan, nan_bits, to_bits};
ghost use Rattle.index.specs.Index.{first};
ghost use Rattle.supplier_entry.specs.Bytes.{low_first, low_bytes};
ghost use Rattle.supplier_entry.specs.Factor.{factor_of, factor_bits, factor_from, thousandths_of};
ghost use Rattle.supplier_entry.specs.Entries.{twos, twos_of, entry_of, whole_of, units_of, as_number, convert_of, import_of, content_of};
ghost use Rattle.supplier_entry.specs.Asked.{Among, Small, Sound, Fit, Writable};

use limits::Limit;

// One entry: a factor, a whole number or a span.
#[derive(Clone, Copy)]
pub enum Entry {
    Factor(f64),
    Whole(i64),
    Span(u64),
}

// How the entries of a field are given: their kind, and of spans the nanoseconds of one of our units.
#[derive(Clone, Copy)]
pub struct Form {
    pub kind: u8,
    pub unit: u64,
}

// n made a float and divided once by 1000.
fn factor(n: usize) -> f64
    requires { n ≤ 1000 }
    ensures { (result ≡ factor_of n) × T (not (is_nan result)) }
{
    n as f64 / 1000.0
}

fn factor_bits(n: usize) -> u64
    requires { n ≤ 1000 }
    ensures { result ≡ factor_bits n }
{
    f64::to_bits(factor(n))
}

// Whether two floats are the same bit for bit; by `==` -0.0 would be 0.0.
fn same(x: f64, y: f64) -> bool
    requires { T (not (is_nan x)) × T (not (is_nan y)) }
    ensures { result ≡ eqb (to_bits binary64 x) (to_bits binary64 y) }
{
    f64::to_bits(x) == f64::to_bits(y)
}

// The first n from `low` to `high` whose factor is x bit for bit. The factors' bits rise, so the search goes by halves: below `from` they
// are less than x's, and from `to` on they are not. They stand in no slice that `partition_point` could search.
fn search(x: f64, low: usize, high: usize) -> Option<usize>
    requires { (high ≤ 1000) × T (not (is_nan x)) }
    ensures { result ≡ first (suc high) (factor_from low (to_bits binary64 x)) }
{
    let bits = f64::to_bits(x);
    let mut from = low;
    let mut to = high + 1;
    while from < to {
        let middle = from + (to - from) / 2;
        if factor_bits(middle) < bits {
            from = middle + 1;
        } else {
            to = middle;
        }
    }
    if high < from {
        return None;
    }
    if same(factor(from), x) {
        return Some(from);
    }
    None
}

// The first n within the limits whose factor is x bit for bit.
fn thousandths(x: f64, limit: Limit) -> Option<usize>
    requires { Among limit × T (not (is_nan x)) }
    ensures { result ≡ thousandths_of limit (to_bits binary64 x) }
{
    let low = varint::nat_abs(limit.low);
    let high = varint::nat_abs(limit.high);
    search(x, low as usize, high as usize)
}

fn wide(x: u8) -> u64
    ensures { (result ≡ x) × (result < 256) }
{
    x as u64
}

// The number of n bytes, low first.
pub fn low_first(s: &[u8], at: usize, n: u64) -> u64
    requires { (at + n ≤ length s.now) × (n ≤ 8) }
    ensures { (result ≡ low_first (take n (drop at s.now))) × (result < 256 ^ n) }
{
    if n == 0 {
        return 0;
    }
    wide(s[at]) + 256 * low_first(s, at + 1, n - 1)
}

// Whether eight bytes are the pattern of a NaN.
fn is_nan(u: u64) -> bool
    ensures { result ≡ nan_bits binary64 u }
{
    9218868437227405312 < u % 9223372036854775808
}

// Eight bytes as a signed number.
fn signed_of(u: u64) -> i64
    ensures { result ≡ twos u }
{
    if u < 9223372036854775808 {
        u as i64
    } else {
        -1 - (18446744073709551615 - u) as i64
    }
}

// What a kind and eight bytes make.
fn read_entry(kind: u8, u: u64) -> Option<Entry>
    ensures { result ≡ entry_of kind u }
{
    if kind == 0 {
        if is_nan(u) {
            return None;
        }
        return Some(Entry::Factor(f64::from_bits(u)));
    }
    if kind == 1 {
        return Some(Entry::Whole(signed_of(u)));
    }
    if kind == 2 {
        return Some(Entry::Span(u));
    }
    None
}

// A whole number, if it lies between the limits.
fn whole(z: i64, limit: Limit) -> Option<i64>
    ensures { result ≡ whole_of limit z }
{
    if (limit.low <= z) & (z <= limit.high) {
        Some(z)
    } else {
        None
    }
}

// A span as a whole number of units.
fn units(t: u64, unit: u64, limit: Limit) -> Option<i64>
    requires { 1 < unit }
    ensures { result ≡ units_of limit unit t }
{
    if t % unit != 0 {
        return None;
    }
    let n = t / unit;
    whole(n as i64, limit)
}

fn number_of(f: Option<usize>) -> Option<i64>
    requires { Small f }
    ensures { result ≡ as_number f }
{
    match f {
        Some(n) => Some(n as i64),
        None => None,
    }
}

// An entry as a number within the limits.
fn convert(e: Entry, unit: u64, limit: Limit) -> Option<i64>
    requires { Sound e unit limit }
    ensures { result ≡ convert_of limit unit e }
{
    match e {
        Entry::Factor(x) => number_of(thousandths(x, limit)),
        Entry::Whole(z) => whole(z, limit),
        Entry::Span(t) => units(t, unit, limit),
    }
}

// The number of ours that a kind and eight bytes stand for in a field of this form.
pub fn import(kind: u8, u: u64, form: Form, limit: Limit) -> Option<i64>
    requires { Fit form limit }
    ensures { result ≡ import_of form limit kind u }
{
    if kind != form.kind {
        return None;
    }
    let Some(e) = read_entry(kind, u) else {
        return None;
    };
    convert(e, form.unit, limit)
}

// A signed number as eight bytes.
fn unsigned_of(z: i64) -> u64
    ensures { result ≡ twos_of z }
{
    let size = varint::nat_abs(z);
    if varint::is_negative(z) {
        18446744073709551615 - (size - 1)
    } else {
        size
    }
}

// The eight bytes of a number of ours in a field of this form, as one number.
fn content_of(z: i64, form: Form) -> u64
    requires { Writable form z }
    ensures { result ≡ content_of form z }
{
    let size = varint::nat_abs(z);
    if form.kind == 0 {
        return factor_bits(size as usize);
    }
    if form.kind == 1 {
        return unsigned_of(z);
    }
    size * form.unit
}

// Eight bytes, low first.
fn put_low(buf: &mut [u8], at: usize, u: u64)
    requires { at + 8 ≤ length buf.old }
    ensures { buf.new ≡ sets buf.old at (low_bytes 8 u) }
{
    let mut rest = u;
    for k in 0..8 {
        buf[at + k] = (rest % 256) as u8;
        rest = rest / 256;
    }
}

// The entry of a number of ours: its kind, then its eight bytes.
pub fn export(z: i64, form: Form, buf: &mut [u8], at: usize)
    requires { Writable form z × (at + 9 ≤ length buf.old) }
    ensures { buf.new ≡ sets buf.old at (form.kind ∷ low_bytes 8 (content_of form z)) }
{
    let u = content_of(z, form);
    buf[at] = form.kind;
    put_low(buf, at + 1, u);
}
