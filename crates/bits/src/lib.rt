// Fields at any bit position of a byte slice, read and written: those of one bit and of whole bytes, and the others passed on.
#![tactic(auto)]

ghost use Rattle.std.specs.Prelude.{◌≡◌, ◌+◌, ◌*◌};
ghost use Rattle.bit_fields.specs.Bits.{field_of, flag_of};

pub use bit_fields::{quad, read};
pub use bits_writing::write;

// Whether the bit at place `at` is 1; false past the end.
pub fn flag(s: &[u8], at: usize) -> bool
    ensures { result ≡ flag_of s.now at }
{
    s.get(at / 8).is_some_and(|x| (*x >> (7 - at % 8)) % 2 == 1)
}

// Byte i; 0 where it is not there.
pub fn octet(s: &[u8], i: usize) -> u8
    ensures { result ≡ field_of s.now (8 * i) 8 }
{
    s.get(i).copied().unwrap_or(0)
}

// The 16 bits of the two bytes from byte i on; 0 where they are not both there.
pub fn pair(s: &[u8], i: usize) -> u64
    ensures { result ≡ field_of s.now (8 * i) 16 }
{
    if s.len() < 2 {
        return 0;
    }
    if s.len() - 2 < i {
        return 0;
    }
    u64::from(u16::from_be_bytes([s[i], s[i + 1]]))
}

// The last 12 bits of the two bytes from byte i on; 0 where they are not both there.
pub fn twelve(s: &[u8], i: usize) -> u64
    ensures { result ≡ field_of s.now (8 * i + 4) 12 }
{
    pair(s, i) % 4096
}
