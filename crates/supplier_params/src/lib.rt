// The other supplier's parameters (02, order 12): our 147 fields in our order, an entry of nine bytes each. Imported they are ours, and
// ours are exported as theirs. The limits are those of crate params; here stands what kind each field has. Which number an entry is, is for
// crate supplier_entry to say.
#![tactic(auto)]

ghost use Rattle.std.specs.Prelude.{◌≡◌, true, ℕ, ◌≤◌, ◌<◌, length};
ghost use Rattle.std.proofs.lemmas.List.Edits.{sets};
ghost use Rattle.records.specs.Records.{param_count};
ghost use Rattle.limits.specs.Limits.{field_of, in_limits};
ghost use Rattle.supplier_params.specs.Forms.{supplier_bytes, form_at};
ghost use Rattle.supplier_params.specs.Import.{number_at, entries_of, Gives, import_of};
ghost use Rattle.params_bytes.specs.Read.{told};
ghost use Rattle.supplier_params.specs.Export.{bytes_of, export_of};

use limits::{FIELDS, GENERAL, NUMBERS, OF_TOPIC};
use params::{Edition, Params};
use params_bytes::{ReadError, WriteError};
use supplier_entry::Form;

// How many bytes the parameters take: 147 entries of nine.
pub const BYTES: usize = 1323;

const FACTOR: Form = Form { kind: 0, unit: 1 };

const WHOLE: Form = Form { kind: 1, unit: 1 };

const SECONDS: Form = Form {
    kind: 2,
    unit: 1000000000,
};

const MILLISECONDS: Form = Form {
    kind: 2,
    unit: 1000000,
};

// The form of each field: 19 general fields, then the 16 that every topic has.
const FORMS: [Form; FIELDS] = [
    // D_lo, D, D_hi, D_out, D_score
    WHOLE,
    WHOLE,
    WHOLE,
    WHOLE,
    WHOLE,
    // prune backoff, unsubscribe backoff, retain
    SECONDS,
    SECONDS,
    SECONDS,
    // opportunistic, graylist, gossip, publish thresholds, topic cap
    WHOLE,
    WHOLE,
    WHOLE,
    WHOLE,
    WHOLE,
    // w5, w6, P6 threshold, w7
    WHOLE,
    WHOLE,
    WHOLE,
    WHOLE,
    // P7 decay, decay-to-zero
    FACTOR,
    FACTOR,
    // weight, w1, quantum, P1 cap
    WHOLE,
    WHOLE,
    MILLISECONDS,
    WHOLE,
    // w2, P2 decay, P2 cap
    WHOLE,
    FACTOR,
    WHOLE,
    // w3, P3 decay, P3 cap, P3 threshold, activation
    WHOLE,
    FACTOR,
    WHOLE,
    WHOLE,
    MILLISECONDS,
    // w3b, P3b decay
    WHOLE,
    FACTOR,
    // w4, P4 decay
    WHOLE,
    FACTOR,
];

// The form of number i.
fn form_of(i: usize) -> Form
    requires { i < param_count }
    ensures { result ≡ form_at (field_of i) }
{
    if i < GENERAL {
        FORMS[i]
    } else {
        FORMS[GENERAL + (i - GENERAL) % OF_TOPIC]
    }
}

// The number of entry i.
fn number_at(s: &[u8], i: usize) -> Option<i64>
    requires { (length s.now ≡ supplier_bytes) × (i < param_count) }
    ensures { result ≡ number_at s.now i }
{
    let at = 9 * i;
    let kind = s[at];
    let u = supplier_entry::low_first(s, at + 1, 8);
    supplier_entry::import(kind, u, form_of(i), limits::limit_of(i))
}

// The numbers of all entries, in a lent array.
fn entries(s: &[u8], numbers: &mut [i64; NUMBERS]) -> Result<(), ReadError>
    requires { length s.now ≡ supplier_bytes }
    ensures { Gives result numbers.new (entries_of s.now) }
{
    for i in 0..NUMBERS {
        let Some(n) = number_at(s, i) else {
            return Err(ReadError::Broken(i));
        };
        numbers[i] = n;
    }
    Ok(())
}

// The parameters that the supplier's bytes stand for and the bytes' length, or why there are none.
pub fn import(s: &[u8]) -> Result<(Params, usize), ReadError>
    ensures { result ≡ told (import_of s.now) }
{
    let n = s.len();
    if n != BYTES {
        return Err(ReadError::Malformed(n));
    }
    let mut numbers = [0i64; NUMBERS];
    entries(s, &mut numbers)?;
    params_bytes::judged(
        Params {
            numbers,
            edition: Edition::First,
        },
        BYTES,
    )
}

// The entries of numbers that lie between their limits.
fn put(all: Params, buf: &mut [u8])
    requires { (supplier_bytes ≤ length buf.old) × ((i : ℕ) → i < param_count → in_limits all.numbers i ≡ true) }
    ensures { buf.new ≡ sets buf.old 0 (bytes_of all.numbers) }
{
    for i in 0..NUMBERS {
        supplier_entry::export(all.numbers[i], form_of(i), buf, 9 * i);
    }
}

// Write parameters of either edition, tested by 01's rules, as the supplier's from the start of the buffer, or say why not and leave the
// buffer.
pub fn export(all: Params, buf: &mut [u8]) -> Result<usize, WriteError>
    ensures { (result ≡ (export_of all.numbers buf.old).answer)
        × (buf.new ≡ (export_of all.numbers buf.old).bytes) }
{
    if buf.len() < BYTES {
        return Err(WriteError::Short);
    }
    let numbers = all.numbers;
    let first = Params {
        numbers,
        edition: Edition::First,
    };
    match first.first_broken() {
        Some(i) => Err(WriteError::Outside(i)),
        None => {
            put(first, buf);
            Ok(BYTES)
        }
    }
}
