// The CRC of bytes, and whether they are a section.
ghost use Rattle.std.specs.Prelude.{◌≡◌};
ghost use Rattle.crc.specs.Crc.{crc32};
ghost use Rattle.section.specs.Accept.{accept_of};
ghost use Rattle.exports_section.specs.Row.{row_number};

// The CRC-32 (ISO/IEC 13818-1) of the bytes.
#[unsafe(no_mangle)]
pub extern "C" fn timpanimist_crc32(bytes: &[u8]) -> u32
    ensures { result ≡ crc32 bytes.now }
{
    crc::crc(bytes)
}

// 0 where the bytes are a section, or else the number of the first row that refuses them, 1 to 10.
#[unsafe(no_mangle)]
pub extern "C" fn timpanimist_accept(section: &[u8]) -> u32
    ensures { result ≡ row_number (accept_of section.now) }
{
    match section::accept(section) {
        Ok(()) => 0,
        Err(refusal) => refusal as u32,
    }
}
