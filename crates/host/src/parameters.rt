// The parameters as an array of 147 numbers and the number of their edition, read from bytes and written to bytes; and the other supplier's
// (02, order 12), imported as ours, and ours exported as theirs.
ghost use Rattle.std.specs.Prelude.{◌≡◌};
ghost use Rattle.params.specs.Editions.{edition_of};
ghost use Rattle.params.specs.Ordinary.{ordinary_numbers};
ghost use Rattle.host_parameters.specs.Parameters.{HostsRead, HostsWrite};
ghost use Rattle.host_parameters.specs.Supplier.{HostsImport, HostsExport};

use limits::NUMBERS;

// The ordinary parameters.
#[unsafe(no_mangle)]
pub extern "C" fn hivepadlet_ordinary(numbers: &mut [i64; NUMBERS])
    ensures { numbers.new ≡ ordinary_numbers }
{
    host_parameters::ordinary(numbers);
}

// Reads the parameters from all of the bytes: 0 with the length, 9 with the index or rule, or 10 with the place.
#[unsafe(no_mangle)]
pub extern "C" fn hivepadlet_read(
    bytes: &[u8],
    numbers: &mut [i64; NUMBERS],
    edition: &mut u64,
) -> u64
    ensures { HostsRead bytes.now result numbers.old numbers.new edition.old edition.new }
{
    host_parameters::read(bytes, numbers, edition)
}

// Writes the parameters to the start of a buffer: 0 with the length, 2, 8, or 9 with the index or rule.
#[unsafe(no_mangle)]
pub extern "C" fn hivepadlet_write(numbers: &[i64; NUMBERS], edition: u64, buffer: &mut [u8]) -> u64
    ensures { HostsWrite (edition_of edition) numbers.now result buffer.old buffer.new }
{
    host_parameters::write(numbers, edition, buffer)
}

// Imports the parameters from all of the bytes: 0 with the length, 10 with the length, or 9 with the index or rule.
#[unsafe(no_mangle)]
pub extern "C" fn hivepadlet_import(bytes: &[u8], numbers: &mut [i64; NUMBERS]) -> u64
    ensures { HostsImport bytes.now result numbers.old numbers.new }
{
    host_parameters::import(bytes, numbers)
}

// Exports the parameters to the start of a buffer: 0 with the length, 13, or 9 with the index or rule.
#[unsafe(no_mangle)]
pub extern "C" fn hivepadlet_export(numbers: &[i64; NUMBERS], buffer: &mut [u8]) -> u64
    ensures { HostsExport numbers.now result buffer.old buffer.new }
{
    host_parameters::export(numbers, buffer)
}
