// From base64 text (RFC 4648 section 4) to the bytes of a section; the way back is passed on.
#![tactic(auto)]

mod decode;

ghost use Rattle.std.specs.Prelude.{◌≡◌};
ghost use Rattle.text.specs.Text.{read, read_into};

pub use text_writing::to_text;
use units::{MOST_TEXT, MOST_TEXT_BYTES, Refusal};

// The bytes of a text, written to the front of out.
pub fn to_section(text: &[u8], out: &mut [u8]) -> Result<usize, Refusal>
    ensures { (result ≡ read text.now out.old) × (out.new ≡ read_into text.now out.old) }
{
    let n = text.len();
    if n % 4 != 0 {
        return Err(Refusal::TextLen);
    }
    if MOST_TEXT < n {
        return Err(Refusal::TextLen);
    }
    if n <= 128 {
        let mut own = [0u8; 96];
        return decode::read_in(text, &mut own, out);
    }
    if n <= 1024 {
        let mut own = [0u8; 768];
        return decode::read_in(text, &mut own, out);
    }
    let mut own = [0u8; MOST_TEXT_BYTES];
    decode::read_in(text, &mut own, out)
}
