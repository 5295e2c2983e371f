// From the bytes of a section to base64 text (RFC 4648 section 4).
#![tactic(auto)]

mod encode;

ghost use Rattle.std.specs.Prelude.{◌≡◌};
ghost use Rattle.text_writing.specs.Writing.{write, write_into};

use units::{MOST_SECTION, Refusal};

// The text of the bytes of a section, written to the front of out.
pub fn to_text(section: &[u8], out: &mut [u8]) -> Result<usize, Refusal>
    ensures { (result ≡ write section.now out.old) × (out.new ≡ write_into section.now out.old) }
{
    let n = section.len();
    if MOST_SECTION < n {
        return Err(Refusal::Size);
    }
    let whole = n / 3;
    let left = n - 3 * whole;
    let mut count = 4 * whole;
    if 0 < left {
        count = count + 4;
    }
    if out.len() < count {
        return Err(Refusal::Room);
    }
    encode::put(section, out, whole, left);
    Ok(count)
}
