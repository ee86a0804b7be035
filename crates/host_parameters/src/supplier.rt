// The other supplier's parameters (02, order 12): imported as ours, and ours exported as theirs.
ghost use Rattle.std.specs.Prelude.{◌≡◌, ◌≤◌, min};
ghost use Rattle.host_parameters.specs.Supplier.{greatest_value, HostsImport, HostsExport};

use answers::packed;
use limits::NUMBERS;
use params::{Edition, Params};
use params_bytes::{ReadError, WriteError};

// A place or a length as the value of an answer, which has 32 bits.
fn told(n: usize) -> u64
    ensures { (result ≡ min n greatest_value) × (result ≤ greatest_value) }
{
    if n < 4294967295 { n as u64 } else { 4294967295 }
}

// Imports the parameters from all of the bytes: 0 with the length, 10 with the length, or 9 with the index or rule.
pub fn import(bytes: &[u8], numbers: &mut [i64; NUMBERS]) -> u64
    ensures { HostsImport bytes.now result numbers.old numbers.new }
{
    match supplier_params::import(bytes) {
        Ok((all, n)) => {
            let values = all.numbers;
            *numbers = values;
            packed(0, told(n))
        }
        Err(ReadError::Malformed(place)) => packed(10, told(place)),
        Err(ReadError::Broken(i)) => packed(9, told(i)),
    }
}

// Exports parameters given by value, of which it is known that they are 147.
fn put_theirs(all: Params, buffer: &mut [u8]) -> u64
    ensures { HostsExport all.numbers result buffer.old buffer.new }
{
    match supplier_params::export(all, buffer) {
        Ok(n) => packed(0, n as u64),
        Err(WriteError::Short) => packed(13, 0),
        Err(WriteError::Outside(i)) => packed(9, i as u64),
    }
}

// Exports the parameters to the start of a buffer: 0 with the length, 13, or 9 with the index or rule.
pub fn export(numbers: &[i64; NUMBERS], buffer: &mut [u8]) -> u64
    ensures { HostsExport numbers.now result buffer.old buffer.new }
{
    let all = Params {
        numbers: *numbers,
        edition: Edition::First,
    };
    put_theirs(all, buffer)
}
