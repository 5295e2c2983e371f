// Fields of 1 to 48 bits at any bit position of a byte slice, written.
#![tactic(auto)]

ghost use Rattle.std.specs.Prelude.{◌≡◌, ◌+◌, ◌-◌, ◌*◌, ◌/◌, ◌%◌, ◌^◌, ◌≤◌, ◌<◌, true, length};
ghost use Rattle.bit_fields.specs.Bits.{bit, num, patched, writable, written_of};
ghost use Rattle.bits_writing.specs.Scattered.{Scattered};

// Gives the field of `width` bits at place `at` the value, and says whether it did: a field wider than 48 bits, one that
// runs past the end and a value that needs more bits change nothing.
pub fn write(s: &mut [u8], at: usize, width: usize, value: u64) -> bool
    ensures { (result ≡ writable s.old at width value) × (s.new ≡ written_of s.old at width value) }
{
    if !bit_fields::is_within(s, at, width) {
        return false;
    }
    if (value >> width) != 0 {
        return false;
    }
    put(s, at, width, value);
    true
}

// Writes a field that can be written.
fn put(s: &mut [u8], at: usize, width: usize, value: u64)
    requires { writable s.old at width value ≡ true }
    ensures { s.new ≡ written_of s.old at width value }
{
    if width == 0 {
        return;
    }
    let word = changed(s, at, width, value);
    scatter(s, at / 8, (at % 8 + width + 7) / 8, word);
}

// The number of the bytes that the field touches, with the value in the field's place. Only the first and the last of them hold
// other bits.
fn changed(s: &[u8], at: usize, width: usize, value: u64) -> u64
    requires { (0 < width) × (writable s.now at width value ≡ true) }
    ensures { result ≡ num (patched (bit s.now) at width value) (8 * (at / 8)) (8 * ((at % 8 + width + 7) / 8)) }
{
    let n = (at % 8 + width + 7) / 8;
    let after = 8 * n - at % 8 - width;
    joined(s[at / 8], at % 8, value, width, s[at / 8 + (n - 1)], after)
}

// The first bits of a byte, a value of `width` bits and the last bits of a byte, as one number.
fn joined(first: u8, before: usize, value: u64, width: usize, last: u8, after: usize) -> u64
    requires { (before ≤ 8) × (value < 2 ^ width) × (before + width + after ≤ 63) }
    ensures { result ≡ (first / 2 ^ (8 - before) * 2 ^ width + value) * 2 ^ after + last % 2 ^ after }
{
    (((((first as u64) >> (8 - before)) << width) + value) << after) + (last as u64) % (1 << after)
}

// Stores the last n bytes of word from byte i on.
fn scatter(s: &mut [u8], i: usize, n: usize, word: u64)
    requires { (n ≤ 8) × (i + n ≤ length s.old) }
    ensures { Scattered s.old i n word s.new }
{
    let bytes = word.to_be_bytes();
    for (k, byte) in bytes[8 - n..].iter().enumerate() {
        s[i + k] = *byte;
    }
}
