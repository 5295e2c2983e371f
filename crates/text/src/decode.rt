// From text to bytes, four characters at a time: a group is looked at once, tested once, and gives its three bytes. They go to
// memory of the reader's own, since the lent memory stays as it was until the whole text has passed.
ghost use Rattle.std.specs.Prelude.{◌≡◌, true, ◌+◌, ◌*◌, ◌/◌, ◌%◌, ◌<◌, ◌≤◌, length, get_or, take};
ghost use Rattle.bits.specs.Bits.{bytes_of};
ghost use Rattle.units.specs.Answers.{memory};
ghost use Rattle.text.specs.Groups.{plain, worth};
ghost use Rattle.text.specs.Text.{padding, before, text_bit, all_of, read, read_into};

use base64_rules::OUTSIDE;
use units::Refusal;

// How many `=` end the text as padding.
fn padding(text: &[u8]) -> usize
    requires { length text.now % 4 ≡ 0 }
    ensures { result ≡ padding text.now }
{
    let n = text.len();
    if n < 4 {
        return 0;
    }
    if text[n - 1] != b'=' {
        return 0;
    }
    if text[n - 2] != b'=' {
        return 1;
    }
    2
}

// Character i of the text; in the place of padding, which starts at place n, the one that stands for six bits of 0.
fn plain(text: &[u8], n: usize, i: usize) -> u8
    requires { i < length text.now }
    ensures { result ≡ plain text.now n i }
{
    let c = text[i];
    if i < n { c } else { b'A' }
}

// The 24 bits of the four characters from place `at` on, with the padding from place n on; OUTSIDE or more where one of them is
// outside the alphabet. A group has two characters at least.
fn group(text: &[u8], n: usize, at: usize) -> u64
    requires { (at + 4 ≤ length text.now) × (at + 2 ≤ n) }
    ensures { result ≡ worth (plain text.now n) at 4 }
{
    let four = [
        text[at],
        text[at + 1],
        plain(text, n, at + 2),
        plain(text, n, at + 3),
    ];
    let mut v: u64 = 0;
    for c in four {
        v = v * 64 + base64_rules::six(c);
    }
    v
}

// The last eight bits of x.
fn low(x: u64) -> u8
    ensures { result ≡ x % 256 }
{
    (x % 256) as u8
}

// Puts the bytes of all groups into the front of the memory, up to the first group with a character outside the alphabet, and
// says whether there is none. The padding starts at place n.
fn put_groups(text: &[u8], n: usize, own: &mut [u8]) -> bool
    requires { (length text.now % 4 ≡ 0) × (n ≡ before text.now) × (3 * (length text.now / 4) ≤ length own.old) }
    ensures { (result ≡ all_of (take (before text.now) text.now)) × (result ≡ true → own.new ≡ memory 0 (bytes_of (text_bit text.now) (3 * (length text.now / 4))) own.old) }
{
    let groups = text.len() / 4;
    for q in 0..groups {
        let v = group(text, n, 4 * q);
        if OUTSIDE <= v {
            return false;
        }
        own[3 * q] = low(v / 65536);
        own[3 * q + 1] = low(v / 256);
        own[3 * q + 2] = low(v);
    }
    true
}

// Byte i of the bytes of all groups, 0 past their end: after the last whole byte stand the spare bits, with zeros after them.
fn byte(bytes: &[u8], i: usize) -> u8
    ensures { result ≡ get_or bytes.now i 0 }
{
    bytes.get(i).copied().unwrap_or(0)
}

// Reads a text of whole groups by way of the reader's own memory, which has room for three bytes a group.
pub(crate) fn read_in(text: &[u8], own: &mut [u8], out: &mut [u8]) -> Result<usize, Refusal>
    requires { (length text.now % 4 ≡ 0) × (length text.now ≤ 5464) × (3 * (length text.now / 4) ≤ length own.old) }
    ensures { (result ≡ read text.now out.old) × (out.new ≡ read_into text.now out.old) }
{
    let n = text.len() - padding(text);
    if !put_groups(text, n, own) {
        return Err(Refusal::TextChar);
    }
    let count = 6 * n / 8;
    if 0 < byte(&own[..3 * (text.len() / 4)], count) {
        return Err(Refusal::TextBits);
    }
    if lent::put(&own[..count], out, 0) {
        Ok(count)
    } else {
        Err(Refusal::Room)
    }
}
