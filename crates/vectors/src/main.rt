// The papers' vectors for seven-bit groups and signed numbers, printed: the bytes of some numbers, and what some bytes read as. The
// expected output is the file stdout, written by hand from the papers.
#![tactic(auto)]

use std::io;

fn end_line(rt: &impl Print) -> io::Result<()> {
    println!(rt;)
}

// The first n bytes in hexadecimal digits, on a line.
fn print_bytes(rt: &impl Print, buf: [u8; 10], n: usize) -> io::Result<()> {
    for i in 0..10 {
        if i < n {
            let b = buf[i];
            print!(rt; "{b:02x}")?;
        }
    }
    end_line(rt)
}

// A number's groups.
fn print_groups(rt: &impl Print, n: u64) -> io::Result<()> {
    let mut buf = [0u8; 10];
    let part: &mut [u8] = &mut buf;
    let put = varint::write_u64(part, 0, n);
    match put {
        Some(k) => print_bytes(rt, buf, k),
        None => end_line(rt),
    }
}

// What bytes read as: the number and the place after it, or `bad`.
fn print_reading(rt: &impl Print, s: &[u8]) -> io::Result<()> {
    let read = varint::read_u64(s, 0);
    match read {
        Some((n, next)) => println!(rt; "{n} {next}"),
        None => println!(rt; "bad"),
    }
}

fn main(rt: HostRuntime) -> io::Result<()> {
    print_groups(&rt, 300)?;
    print_groups(&rt, 0)?;
    print_groups(&rt, u64::MAX)?;
    print_groups(&rt, varint::code_of(-1))?;
    print_groups(&rt, varint::code_of(1))?;
    print_groups(&rt, varint::code_of(0))?;
    print_groups(&rt, varint::code_of(i64::MIN))?;
    print_reading(&rt, b"\xAC\x02")?;
    print_reading(&rt, b"\x80\x00")?;
    print_reading(&rt, b"\x00")?;
    print_reading(&rt, b"\xFF\xFF\xFF\xFF\xFF\xFF\xFF\xFF\xFF\x01")?;
    print_reading(&rt, b"\xFF\xFF\xFF\xFF\xFF\xFF\xFF\xFF\xFF\x02")?;
    print_reading(&rt, b"\xAC")?;
    print_reading(&rt, b"")
}
