// The characters of an answer line.
ghost use Rattle.std.specs.Prelude.{◌≡◌, ◌+◌, ◌≤◌, length};
ghost use Rattle.spelling.specs.Spelling.{digits, numbered, lettered, spelled};
ghost use Rattle.units.specs.Put.{Put};

use crate::Line;

// The line at the front of the characters, and how long it is.
pub(crate) fn put(line: Line, characters: &mut [u8]) -> usize
    requires { 23 ≤ length characters.old }
    ensures { Put characters.old 0 (spelled line) result characters.new }
{
    match line {
        Line::Measured(millis) => number(b'A', millis.0, characters),
        Line::Unmeasured => letter(b'B', characters),
        Line::None => letter(b'N', characters),
        Line::Unread => letter(b'X', characters),
        Line::Refused(refusal) => number(b'R', refusal.number(), characters),
    }
}

fn letter(letter: u8, characters: &mut [u8]) -> usize
    requires { 23 ≤ length characters.old }
    ensures { Put characters.old 0 (lettered letter) result characters.new }
{
    characters[0] = letter;
    characters[1] = b'\n';
    2
}

fn number(letter: u8, n: u64, characters: &mut [u8]) -> usize
    requires { 23 ≤ length characters.old }
    ensures { Put characters.old 0 (numbered letter n) result characters.new }
{
    characters[0] = letter;
    characters[1] = b' ';
    let end = decimal(n, characters, 2);
    characters[end] = b'\n';
    end + 1
}

// The digits of n from a place on, and the place after them.
fn decimal(n: u64, characters: &mut [u8], at: usize) -> usize
    requires { at + 20 ≤ length characters.old }
    ensures { Put characters.old at (digits 20 n) result characters.new }
{
    let count = places(n);
    let mut rest = n;
    for i in (0..count).rev() {
        characters[at + i] = (rest % 10) as u8 + 48;
        rest /= 10;
    }
    at + count
}

// How many digits n has.
fn places(n: u64) -> usize
    ensures { result ≡ length (digits 20 n) }
{
    n.max(1).ilog10() as usize + 1
}
