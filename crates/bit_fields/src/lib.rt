// Fields of 1 to 48 bits at any bit position of a byte slice, read. Place 0 is the most significant bit of the first byte.
#![tactic(auto)]

ghost use Rattle.std.specs.Prelude.{◌≡◌, ◌+◌, ◌*◌, ◌^◌, ◌≤◌, ◌<◌, length, get_or};
ghost use Rattle.bit_fields.specs.Bits.{bit, num, within, field_of};

// The field of `width` bits at place `at`; 0 where it is wider than 48 bits or runs past the end.
pub fn read(s: &[u8], at: usize, width: usize) -> u64
    ensures { result ≡ field_of s.now at width }
{
    if width == 0 {
        return 0;
    }
    if is_within(s, at, width) {
        (gather(s, at / 8) << (at % 8)) >> (64 - width)
    } else {
        0
    }
}

// The 32 bits of the four bytes from byte i on; 0 where they are not all there.
pub fn quad(s: &[u8], i: usize) -> u64
    ensures { result ≡ field_of s.now (8 * i) 32 }
{
    if s.len() < 4 {
        return 0;
    }
    if s.len() - 4 < i {
        return 0;
    }
    half(s, i)
}

// Whether all of a field of at most 48 bits lies within s.
pub fn is_within(s: &[u8], at: usize, width: usize) -> bool
    ensures { result ≡ within s.now at width }
{
    if width > 48 {
        return false;
    }
    let first = at / 8;
    if first > s.len() {
        return false;
    }
    (at % 8 + width + 7) / 8 <= s.len() - first
}

// The 64 bits from byte i on; past the end they are 0.
fn gather(s: &[u8], i: usize) -> u64
    requires { i ≤ length s.now }
    ensures { result ≡ num (bit s.now) (8 * i) 64 }
{
    if 8 <= s.len() - i {
        half(s, i) * 4294967296 + half(s, i + 4)
    } else {
        last(s, i)
    }
}

// The 32 bits from byte i on, all of them within s.
fn half(s: &[u8], i: usize) -> u64
    requires { i + 4 ≤ length s.now }
    ensures { (result ≡ num (bit s.now) (8 * i) 32) × (result < 2 ^ 32) }
{
    u64::from(u32::from_be_bytes([s[i], s[i + 1], s[i + 2], s[i + 3]]))
}

// The 64 bits from byte i on, where fewer than eight bytes are left.
fn last(s: &[u8], i: usize) -> u64
    requires { i ≤ length s.now }
    ensures { result ≡ num (bit s.now) (8 * i) 64 }
{
    let mut word: u64 = 0;
    for k in 0..8 {
        word = word * 256 + byte(s, i + k);
    }
    word
}

// Byte i, and 0 past the end.
fn byte(s: &[u8], i: usize) -> u64
    ensures { (result ≡ get_or s.now i 0) × (result < 256) }
{
    s.get(i).map_or(0, |x| u64::from(*x))
}
