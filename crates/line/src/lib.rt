// The answer line of a text: what the tally says of one cue.
#![tactic(auto)]

ghost use Rattle.std.specs.Prelude.{◌≡◌, length};
ghost use Rattle.text.specs.Text.{read_into};
ghost use Rattle.line.specs.Line.{answer_in, in_millis};
ghost use Rattle.line.specs.Line as says;

use house::Break;
pub use spelling::{Line, spell};
use units::{MOST_TEXT_BYTES, Refusal};

// The answer to a text.
pub fn answer(text: &[u8]) -> Line
    ensures { result ≡ says.line_answer text.now }
{
    // four characters give three bytes at most, and the room is cleared for each text: a short one takes a small room
    if text.len() <= 128 {
        let mut section = [0u8; 96];
        return answer_in(text, &mut section);
    }
    if text.len() <= 1024 {
        let mut section = [0u8; 768];
        return answer_in(text, &mut section);
    }
    let mut section = [0u8; MOST_TEXT_BYTES];
    answer_in(text, &mut section)
}

// The same, with the section's bytes in lent memory.
pub fn answer_in(text: &[u8], section: &mut [u8]) -> Line
    ensures { (result ≡ answer_in text.now (length section.old)) × (section.new ≡ read_into text.now section.old) }
{
    let read = text::to_section(text, section);
    let Ok(count) = read else {
        // a refusal of the text goes out under its own number
        return Line::Refused(read.unwrap_err());
    };
    in_millis(house::break_answer(&section[..count]))
}

// A break in milliseconds, or the refusal.
fn in_millis(answer: Result<Break, Refusal>) -> Line
    ensures { result ≡ in_millis answer }
{
    match answer {
        Ok(Break::None) => Line::None,
        Ok(Break::Measured(ticks)) => Line::Measured(ticks.to_millis()),
        Ok(Break::Unmeasured) => Line::Unmeasured,
        Ok(Break::Unread) => Line::Unread,
        Err(refusal) => Line::Refused(refusal),
    }
}
