// A stream of lines, each a text, and the answer line of each: in turns over whatever input is at hand. What is held of a
// line that was cut, the carry buffer and the output are the caller's, so memory stays the same however long the stream is.
#![tactic(auto)]

mod answers;
mod carry;

ghost use Rattle.std.specs.Prelude.{◌≡◌, ◌+◌, ◌≤◌, length, drop, ltb};
ghost use Rattle.lines.specs.Turns.{turn_answer, turn_carry, turn_out, last_answer, last_out, line_length};

pub use answers::{Held, Turn};
use line::Line;
use units::{MOST_TEXT, MOST_TEXT_BYTES, Refusal};

// One turn: the answers of the lines that end in the input, in order, until the next answer has no room. A stream starts
// with no characters held.
pub fn turn(held: Held, input: &[u8], carry: &mut [u8], out: &mut [u8]) -> Result<Turn, Refusal>
    ensures { (result ≡ turn_answer held input.now carry.old out.old) × (carry.new ≡ turn_carry held input.now carry.old out.old) × (out.new ≡ turn_out held input.now carry.old out.old) }
{
    if carry.len() < MOST_TEXT {
        return Err(Refusal::Room);
    }
    let mut section = [0u8; MOST_TEXT_BYTES];
    let mut held = held;
    let mut taken = 0;
    let mut written = 0;
    loop {
        let end = line_end(input, taken);
        if end == input.len() {
            let held = carry::keep(held, &input[taken..], carry);
            return Ok(Turn {
                held,
                taken: end,
                written,
            });
        }
        let answer = carry::ended(held, &input[taken..end], carry, &mut section);
        let Ok(n) = line::spell(answer, &mut out[written..]) else {
            return Ok(Turn {
                held,
                taken,
                written,
            });
        };
        held = Held::Characters(0);
        taken = end + 1;
        written += n;
    }
}

// Where the line that starts at a place ends: at its newline, or where the input does.
fn line_end(input: &[u8], from: usize) -> usize
    requires { from ≤ length input.now }
    ensures { result ≡ from + line_length (drop from input.now) }
{
    let mut at = from;
    let (chunks, _) = input[from..].as_chunks::<32>();
    for chunk in chunks {
        if has_newline(chunk) {
            break;
        }
        at += 32;
    }
    let rest = &input[at..];
    at + rest
        .iter()
        .position(|character| *character == b'\n')
        .unwrap_or(rest.len())
}

// Whether one of the characters is a newline. All of them are looked at, since a loop without an early end becomes vector
// code.
fn has_newline(characters: &[u8]) -> bool
    ensures { result ≡ ltb (line_length characters.now) (length characters.now) }
{
    let mut found = false;
    for character in characters {
        found |= *character == b'\n';
    }
    found
}

// The end of the stream: the answer of the line that is held, if one is.
pub fn last_line(held: Held, carry: &[u8], out: &mut [u8]) -> Result<usize, Refusal>
    ensures { (result ≡ last_answer held carry.now out.old) × (out.new ≡ last_out held carry.now out.old) }
{
    if carry.len() < MOST_TEXT {
        return Err(Refusal::Room);
    }
    match held {
        Held::Characters(n) => {
            if n == 0 {
                return Ok(0);
            }
            if n <= MOST_TEXT {
                line::spell(line::answer(&carry[..n]), out)
            } else {
                line::spell(Line::Refused(Refusal::TextLen), out)
            }
        }
        Held::TooLong => line::spell(Line::Refused(Refusal::TextLen), out),
    }
}
