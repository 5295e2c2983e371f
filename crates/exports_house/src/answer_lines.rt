// The answer line of a text, and those of a stream of texts, turn by turn.
#![tactic(auto, using(wire::proofs::Given::refusals))]

ghost use Rattle.std.specs.Prelude.{◌≡◌};
ghost use Rattle.line.specs.Line.{line_answer};
ghost use Rattle.spelling.specs.Spelling.{spell_answer, spell_into};
ghost use Rattle.lines.specs.Turns.{turn_answer, turn_carry, turn_out, last_answer, last_out};
ghost use Rattle.wire.specs.Wire.{wire};
ghost use Rattle.wire.specs.Given.{given, given_into};
ghost use Rattle.exports_house.specs.Turns.{held_of, held_number, turn_numbers, with_room};

use lines::{Held, Turn};
use units::{MOST_TEXT, Refusal};

// The answer line of a text, its newline among it, written to the front of out.
#[unsafe(no_mangle)]
pub extern "C" fn timpanimist_line(text: &[u8], out: &mut [u8]) -> u64
    ensures { (result ≡ wire (spell_answer (line_answer text.now) out.old)) × (out.new ≡ spell_into (line_answer text.now) out.old) }
{
    let answer = line::answer(text);
    wire::number(line::spell(answer, out))
}

// One turn over a stream of lines: what is held then, how much of the input was taken and how much of out was written are the
// three numbers of turn.
#[unsafe(no_mangle)]
pub extern "C" fn timpanimist_lines(
    held: u64,
    input: &[u8],
    carry: &mut [u8],
    out: &mut [u8],
    turn: &mut [u64],
) -> u64
    ensures { (result ≡ wire (given (turn_numbers (turn_answer (held_of held) input.now carry.old out.old)) turn.old)) × (turn.new ≡ given_into (turn_numbers (turn_answer (held_of held) input.now carry.old out.old)) turn.old) × (carry.new ≡ with_room turn.old carry.old (turn_carry (held_of held) input.now carry.old out.old)) × (out.new ≡ with_room turn.old out.old (turn_out (held_of held) input.now carry.old out.old)) }
{
    if turn.len() < 3 {
        return wire::number(Err(Refusal::Room));
    }
    let answer = lines::turn(held_of(held), input, carry, out);
    wire::number(give(answer, turn))
}

// The end of a stream: the answer line of what is held, if anything is, written to the front of out.
#[unsafe(no_mangle)]
pub extern "C" fn timpanimist_last_line(held: u64, carry: &[u8], out: &mut [u8]) -> u64
    ensures { (result ≡ wire (last_answer (held_of held) carry.now out.old)) × (out.new ≡ last_out (held_of held) carry.now out.old) }
{
    wire::number(lines::last_line(held_of(held), carry, out))
}

// A turn as three numbers.
fn give(answer: Result<Turn, Refusal>, turn: &mut [u64]) -> Result<usize, Refusal>
    ensures { (result ≡ given (turn_numbers answer) turn.old) × (turn.new ≡ given_into (turn_numbers answer) turn.old) }
{
    let moved = answer?;
    let held = held_number(moved.held);
    wire::give(&[held, moved.taken as u64, moved.written as u64], turn)
}

// What is held, as a number and back.
fn held_of(n: u64) -> Held
    ensures { result ≡ held_of n }
{
    if n <= MOST_TEXT as u64 {
        Held::Characters(n as usize)
    } else {
        Held::TooLong
    }
}

fn held_number(held: Held) -> u64
    ensures { result ≡ held_number held }
{
    match held {
        Held::Characters(n) => n as u64,
        Held::TooLong => 5465,
    }
}
