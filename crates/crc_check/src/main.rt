// Writes the CRC of a few inputs, in hex, one to a line. Between them they take every way: no byte, fewer than eight, eight in one
// turn, and more turns, the first of one byte, of three and of seven.
#![tactic(auto)]

use std::io;

fn main(rt: HostRuntime) -> io::Result<()> {
    // The check value that lists of CRCs give, 0376e6e7.
    show(&rt, b"123456789")?;
    show(&rt, b"")?;
    // By another program, one bit at a time.
    show(&rt, b"123")?;
    show(&rt, b"12345678")?;
    // A splice section with its CRC: 0. And without: its last four bytes.
    show(
        &rt,
        b"\xfc\x30\x34\x00\x00\x00\x00\x00\x00\x00\x00\x00\x05\x06\xfe\x00\x30\x10\xe9\x00\x1e\x02\x1c\x43\x55\x45\x49\x40\x00\x00\x3b\x7f\xcf\x00\x01\x14\xac\x4a\x08\x08\x00\x00\x00\x00\x20\xfb\x65\x01\x34\x00\x00\x36\xfa\xed\xa1",
    )?;
    show(
        &rt,
        b"\xfc\x30\x34\x00\x00\x00\x00\x00\x00\x00\x00\x00\x05\x06\xfe\x00\x30\x10\xe9\x00\x1e\x02\x1c\x43\x55\x45\x49\x40\x00\x00\x3b\x7f\xcf\x00\x01\x14\xac\x4a\x08\x08\x00\x00\x00\x00\x20\xfb\x65\x01\x34\x00\x00",
    )
}

fn show(rt: &impl Print, s: &[u8]) -> io::Result<()> {
    let crc = crc::crc(s);
    println!(rt; "{crc:08x}")
}
