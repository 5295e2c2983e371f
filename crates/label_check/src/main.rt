// Writes, for a few sections, the bill label under a house name and the UPID bytes of known descriptors 0 and 1, in hex. The
// house's names are the letters A to E, 41 to 45.
#![tactic(auto)]

use std::io;

fn main(rt: HostRuntime) -> io::Result<()> {
    // 004's, whose only descriptor has the eight UPID bytes that 01's sheet lists (0, 0, 0, 0, 32, 251, 101, 1): these are the
    // label. Descriptor 1 is NOTHERE, 16.
    show(
        &rt,
        b"\xfc\x30\x34\x00\x00\x00\x00\x00\x00\x00\x00\x00\x05\x06\xfe\x00\x30\x10\xe9\x00\x1e\x02\x1c\x43\x55\x45\x49\x40\x00\x00\x3b\x7f\xcf\x00\x01\x14\xac\x4a\x08\x08\x00\x00\x00\x00\x20\xfb\x65\x01\x34\x00\x00\x36\xfa\xed\xa1",
        b"A",
    )?;
    // The same with upid_length 0, so 8 less in descriptor_length, descriptor_loop_length and section_length, and the CRC renewed:
    // a UPID of no bytes, which is not refused, and the house's name.
    show(
        &rt,
        b"\xfc\x30\x2c\x00\x00\x00\x00\x00\x00\x00\x00\x00\x05\x06\xfe\x00\x30\x10\xe9\x00\x16\x02\x14\x43\x55\x45\x49\x40\x00\x00\x3b\x7f\xcf\x00\x01\x14\xac\x4a\x08\x00\x34\x00\x00\xf9\xdc\x3b\xbc",
        b"B",
    )?;
    // Both descriptors in one loop, that with the empty UPID first: the label is the other's.
    show(
        &rt,
        b"\xfc\x30\x4a\x00\x00\x00\x00\x00\x00\x00\x00\x00\x05\x06\xfe\x00\x30\x10\xe9\x00\x34\x02\x14\x43\x55\x45\x49\x40\x00\x00\x3b\x7f\xcf\x00\x01\x14\xac\x4a\x08\x00\x34\x00\x00\x02\x1c\x43\x55\x45\x49\x40\x00\x00\x3b\x7f\xcf\x00\x01\x14\xac\x4a\x08\x08\x00\x00\x00\x00\x20\xfb\x65\x01\x34\x00\x00\xed\xbb\x02\xf8",
        b"C",
    )?;
    // 004's with encrypted_packet set and the CRC renewed: the house's name, and the UPID is SEALED, 17.
    show(
        &rt,
        b"\xfc\x30\x34\x00\x80\x00\x00\x00\x00\x00\x00\x00\x05\x06\xfe\x00\x30\x10\xe9\x00\x1e\x02\x1c\x43\x55\x45\x49\x40\x00\x00\x3b\x7f\xcf\x00\x01\x14\xac\x4a\x08\x08\x00\x00\x00\x00\x20\xfb\x65\x01\x34\x00\x00\x90\x2a\x73\x37",
        b"D",
    )?;
    // 004's with another last byte: the house's name, and CRC, 5.
    show(
        &rt,
        b"\xfc\x30\x34\x00\x00\x00\x00\x00\x00\x00\x00\x00\x05\x06\xfe\x00\x30\x10\xe9\x00\x1e\x02\x1c\x43\x55\x45\x49\x40\x00\x00\x3b\x7f\xcf\x00\x01\x14\xac\x4a\x08\x08\x00\x00\x00\x00\x20\xfb\x65\x01\x34\x00\x00\x36\xfa\xed\xa0",
        b"E",
    )
}

fn show<'a>(rt: &impl Print, section: &'a [u8], house: &'a [u8]) -> io::Result<()> {
    write(rt, b"label", labels::bill_label(section, house))?;
    rt.write_all(b"\n")?;
    upid(rt, section, 0)?;
    upid(rt, section, 1)
}

// The UPID bytes of known descriptor n, and the refusal that the companion question gives where there are none.
fn upid(rt: &impl Print, section: &[u8], n: usize) -> io::Result<()> {
    write(rt, b"upid", reading::upid_bytes(section, n))?;
    if let Err(refusal) = reading::upid(section, n) {
        let number = refusal.number();
        print!(rt; " refused {number}")?;
    }
    rt.write_all(b"\n")
}

fn write(rt: &impl Print, word: &[u8], bytes: &[u8]) -> io::Result<()> {
    rt.write_all(word)?;
    for byte in bytes {
        print!(rt; " {byte:02x}")?;
    }
    Ok(())
}
