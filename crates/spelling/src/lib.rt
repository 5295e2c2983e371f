// An answer line: what the tally says of one cue, and its characters.
#![tactic(auto)]

mod characters;

ghost use Rattle.std.specs.Prelude.{◌≡◌};
ghost use Rattle.spelling.specs.Spelling.{spell_answer, spell_into};

use units::{Millis, Refusal};

// What a line says of its text.
#[derive(Clone, Copy)]
pub enum Line {
    // `A m`: a break that lasts so long.
    Measured(Millis),
    // `B`: a break whose cue says no duration.
    Unmeasured,
    // `N`: no break.
    None,
    // `X`: sealed, or a command of a type that the standard does not have.
    Unread,
    // `R n`: not a text, or not the text of a section.
    Refused(Refusal),
}

// The line as characters, its newline among them, written to the front of out.
pub fn spell(line: Line, out: &mut [u8]) -> Result<usize, Refusal>
    ensures { (result ≡ spell_answer line out.old) × (out.new ≡ spell_into line out.old) }
{
    // the longest line: a letter, a blank, twenty digits and a newline
    let mut characters = [0u8; 23];
    let n = characters::put(line, &mut characters);
    if lent::put(&characters[..n], out, 0) {
        Ok(n)
    } else {
        Err(Refusal::Room)
    }
}
