// CRC-32 as ISO/IEC 13818-1 has it, over lent bytes. Bits to come may be put into the register beforehand, by xor, and what the
// register then comes to is read off tables. A turn takes in eight bytes. Bytes that make no eight are taken in the first turn and
// not in the last, with zeros before them: a register of 0 stays 0 over zeros, and so what the register starts with is put in
// beside these bytes, and what of it then is left after them.
#![tactic(auto)]

ghost use Rattle.std.specs.Prelude.{◌≡◌, ◌+◌, ◌-◌, ◌*◌, ◌/◌, ◌%◌, ◌^◌, ◌≤◌, ◌<◌, length};
ghost use Rattle.std.specs.Int.Bits.{bit_xor};
ghost use Rattle.bits.specs.Bits.{bit, num};
ghost use Rattle.crc_steps.specs.Steps.{zeros};
ghost use Rattle.crc.specs.Crc.{crc32};

// The CRC of s. A section, its last four bytes included, has the CRC 0 exactly when those four are the CRC of the rest.
// It calls `turns` at two places, so the compiler keeps that a function of its own, and puts the little that is left here in the
// place of each call of `crc`.
pub fn crc(s: &[u8]) -> u32
    ensures { result ≡ crc32 s.now }
{
    if s.len() == 0 {
        return 0xFFFF_FFFF;
    }
    if s.len() < 8 {
        return turns(s, few(s));
    }
    turns(s, eight(s))
}

// The CRC of s, of which `front` has the first eight bytes, with zeros past the end. It lends s to no other function, so the compiler
// has s handed over in registers and not in memory.
fn turns(s: &[u8], front: u64) -> u32
    requires { (0 < length s.now) × (front ≡ num (bit s.now) 0 64) }
    ensures { result ≡ crc32 s.now }
{
    let m = (s.len() - 1) % 8;
    let x = first(front, m);
    let mut a = high(x);
    let mut b = low(x);
    let mut more = spill(m);
    let mut i = m + 1;
    loop {
        let r = turn(a, b);
        if s.len() <= i {
            return r ^ more;
        }
        // the word with what is left, before r is known
        a = r ^ (word(s[i], s[i + 1], s[i + 2], s[i + 3]) ^ more);
        b = word(s[i + 4], s[i + 5], s[i + 6], s[i + 7]);
        more = 0;
        i += 8;
    }
}

// The first m + 1 of eight bytes, with what of the register at the start goes in beside them.
fn first(front: u64, m: usize) -> u64
    requires { m < 8 }
    ensures { result ≡ bit_xor (front / 2 ^ (56 - 8 * m)) (0xFFFFFFFF * 2 ^ (8 * (m + 1)) / 2 ^ 32) }
{
    (front ^ 0xFFFF_FFFF_0000_0000) >> (56 - 8 * m)
}

// What of it goes in after them; in two shifts, since there is none by 64 places.
fn spill(m: usize) -> u32
    requires { m < 8 }
    ensures { result ≡ 0xFFFFFFFF * 2 ^ (8 * (m + 1)) % 2 ^ 32 }
{
    low((0xFFFF_FFFF << (8 * m)) << 8)
}

// The first eight bytes as a number.
fn eight(s: &[u8]) -> u64
    requires { 8 ≤ length s.now }
    ensures { result ≡ num (bit s.now) 0 64 }
{
    u64::from_be_bytes([s[0], s[1], s[2], s[3], s[4], s[5], s[6], s[7]])
}

// The same of fewer, with zeros past the end. From the last to the first: were the first read here before the others, the compiler
// would read it once for this and for `eight`, and the other seven there by themselves.
fn few(s: &[u8]) -> u64
    ensures { result ≡ num (bit s.now) 0 64 }
{
    let mut x: u64 = 0;
    for i in (0..s.len()).rev() {
        x = (x >> 8) + (u64::from(s[i]) << 56);
    }
    x
}

// The register of 0 after the eight bytes of the words a and b. Each table is looked into at one place of the code: the compiler
// then puts the table there, and a look-up is no call.
fn turn(a: u32, b: u32) -> u32
    ensures { result ≡ bit_xor (zeros 64 a) (zeros 32 b) }
{
    let mut y: u64 = 0;
    for w in [a, b] {
        y = (y >> 32)
            ^ crc_table_0::ahead(w)
            ^ crc_table_1::ahead(w)
            ^ crc_table_2::ahead(w)
            ^ crc_table_3::ahead(w);
    }
    low(y)
}

// The number that four bytes make, most significant first.
fn word(a: u8, b: u8, c: u8, d: u8) -> u32
    ensures { result ≡ ((a * 256 + b) * 256 + c) * 256 + d }
{
    u32::from_be_bytes([a, b, c, d])
}

// The upper half of x.
fn high(x: u64) -> u32
    ensures { result ≡ x / 2 ^ 32 }
{
    (x >> 32) as u32
}

// The lower half of x.
fn low(x: u64) -> u32
    ensures { result ≡ x % 2 ^ 32 }
{
    (x % 0x1_0000_0000) as u32
}
