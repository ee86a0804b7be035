// The parameters for a host: as an array of 147 numbers and the number of their edition, read from bytes and written to bytes. Each
// function promises what the call below does, with the answer as one number (specs/Parameters.antt, specs/Supplier.antt); none asks
// anything.
#![tactic(auto)]

pub mod supplier;

ghost use Rattle.std.specs.Prelude.{Some};
ghost use Rattle.std.specs.Prelude.{◌≡◌};
ghost use Rattle.params.specs.Editions.{edition_of};
ghost use Rattle.params.specs.Ordinary.{ordinary_numbers};
ghost use Rattle.host_parameters.specs.Parameters.{HostsRead, HostsWrite};

pub use crate::supplier::{export, import};
use answers::packed;
use limits::NUMBERS;
use params::{Edition, Params};
use params_bytes::{ReadError, WriteError};

// The ordinary parameters.
pub fn ordinary(numbers: &mut [i64; NUMBERS])
    ensures { numbers.new ≡ ordinary_numbers }
{
    let ordinary = Params::ordinary();
    let values = ordinary.numbers;
    *numbers = values;
}

// Reads the parameters from all of the bytes: 0 with the length, 9 with the index or rule, or 10 with the place.
pub fn read(bytes: &[u8], numbers: &mut [i64; NUMBERS], edition: &mut u64) -> u64
    ensures { HostsRead bytes.now result numbers.old numbers.new edition.old edition.new }
{
    match params_bytes::read(bytes) {
        Ok((all, n)) => {
            let values = all.numbers;
            *numbers = values;
            *edition = u64::from(all.edition);
            packed(0, n as u64)
        }
        Err(ReadError::Malformed(place)) => packed(10, place as u64),
        Err(ReadError::Broken(i)) => packed(9, i as u64),
    }
}

// Writes parameters given by value, of which it is known that they are 147.
fn put(all: Params, buffer: &mut [u8]) -> u64
    ensures { HostsWrite (Some all.edition) all.numbers result buffer.old buffer.new }
{
    match params_bytes::write(all, buffer) {
        Ok(n) => packed(0, n as u64),
        Err(WriteError::Short) => packed(8, 0),
        Err(WriteError::Outside(i)) => packed(9, i as u64),
    }
}

// Writes the parameters to the start of a buffer: 0 with the length, 2, 8, or 9 with the index or rule.
pub fn write(numbers: &[i64; NUMBERS], edition: u64, buffer: &mut [u8]) -> u64
    ensures { HostsWrite (edition_of edition) numbers.now result buffer.old buffer.new }
{
    let Ok(e) = Edition::try_from(edition) else {
        return packed(2, 0);
    };
    let all = Params {
        numbers: *numbers,
        edition: e,
    };
    put(all, buffer)
}
