// How long the DASH event of a section lasts: the DVB sentence about the longest duration, which does not bill.
ghost use Rattle.std.specs.Prelude.{◌≡◌};
ghost use Rattle.command_reading.specs.Command as command_says;
ghost use Rattle.opening.proofs.Asked.{IsOpen};
ghost use Rattle.breaks.specs.Signals.{known_readings};
ghost use Rattle.breaks.specs.Dash.{dash_of, dash_by, dash_duration};

use crate::signal::{Measure, walk};
use descriptors::Cursor;
use units::{Refusal, Ticks};

// How long the DASH event of the section lasts: the longest duration of a time signal's descriptors, if there is one.
#[tactic(auto, using(opening::proofs::Asked::is_open), unfolding(crate::specs::Dash::dash_duration, opening::specs::First::asked))]
pub fn dash_duration(section: &[u8]) -> Result<Option<Ticks>, Refusal>
    ensures { result ≡ dash_duration section.now }
{
    let cursor = opening::open(section)?;
    Ok(open_dash(section, cursor))
}

// That of an open section: only a time signal has one.
fn open_dash(s: &[u8], cursor: Cursor) -> Option<Ticks>
    requires { IsOpen s.now cursor }
    ensures { Ok result ≡ dash_by (command_says.command s.now) (known_readings s.now cursor) }
{
    // splice_command_type
    if s[13] != 0x06 {
        return None;
    }
    let signal = walk(s, cursor);
    lasting(signal.longest)
}

// One of 0 ticks is a duration.
fn lasting(longest: Option<Measure>) -> Option<Ticks>
    ensures { result ≡ dash_of longest }
{
    longest.map(|measure| measure.ticks)
}
