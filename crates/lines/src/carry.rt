// The carry buffer, which has room for the longest text: the characters of a line that was cut.
ghost use Rattle.std.specs.Prelude.{◌≡◌, ◌≤◌, length};
ghost use Rattle.lines.specs.Turns.{held_with, carry_with, carry_ended};
ghost use Rattle.lines.specs.Turns as says;

use crate::Held;
use line::Line;
use units::{MOST_TEXT, Refusal};

// A part of a line, put behind what is held of it.
pub(crate) fn keep(held: Held, part: &[u8], carry: &mut [u8]) -> Held
    requires { 5464 ≤ length carry.old }
    ensures { (result ≡ held_with held part.now) × (carry.new ≡ carry_with held carry.old part.now) }
{
    let Held::Characters(n) = held else {
        return Held::TooLong;
    };
    if MOST_TEXT < n {
        return Held::TooLong;
    }
    if MOST_TEXT - n < part.len() {
        return Held::TooLong;
    }
    lent::put(part, carry, n);
    Held::Characters(n + part.len())
}

// The answer to a line that ends after the part. A line of which nothing is held stands whole in the input.
pub(crate) fn ended(held: Held, part: &[u8], carry: &mut [u8], section: &mut [u8]) -> Line
    requires { (5464 ≤ length carry.old) × (length section.old ≡ 4098) }
    ensures { (result ≡ says.ended held carry.old part.now) × (carry.new ≡ carry_ended held carry.old part.now) }
{
    match held {
        Held::Characters(n) => {
            if n == 0 {
                line::answer_in(part, section)
            } else {
                joined(n, part, carry, section)
            }
        }
        Held::TooLong => Line::Refused(Refusal::TextLen),
    }
}

// The same for a line of which n characters are held, put together in the carry buffer.
fn joined(n: usize, part: &[u8], carry: &mut [u8], section: &mut [u8]) -> Line
    requires { (5464 ≤ length carry.old) × (length section.old ≡ 4098) }
    ensures { (result ≡ says.ended (Held.Characters n) carry.old part.now) × (carry.new ≡ carry_with (Held.Characters n) carry.old part.now) }
{
    match keep(Held::Characters(n), part, carry) {
        Held::Characters(end) => line::answer_in(&carry[..end], section),
        Held::TooLong => Line::Refused(Refusal::TextLen),
    }
}
