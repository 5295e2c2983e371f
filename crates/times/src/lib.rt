// The effective time of a section, and the first DVB-DASH check.
#![tactic(auto)]

ghost use Rattle.std.specs.Prelude.{◌≡◌};
ghost use Rattle.command_reading.specs.Command as command_says;
ghost use Rattle.times.specs.Times.{moved_by, effective_by};
ghost use Rattle.times.specs.Times as says;

use command_reading::{Command, SpliceTime};
use units::{Refusal, Ticks};

// When the splice takes place on the stream's own clock, if it has a time.
pub fn effective_time(section: &[u8]) -> Result<Option<Ticks>, Refusal>
    ensures { result ≡ says.effective_time section.now }
{
    opening::open(section)?;
    open_time(section, Ticks(bits::read(section, 39, 33)))
}

// The time of an open section with that pts_adjustment, by its command.
fn open_time(s: &[u8], pts_adjustment: Ticks) -> Result<Option<Ticks>, Refusal>
    ensures { result ≡ effective_by pts_adjustment.0 (command_says.command s.now) }
{
    match command_reading::command(s)? {
        Command::Insert(insert) => Ok(moved_by(pts_adjustment, insert.time)),
        Command::TimeSignal(time) => Ok(moved_by(pts_adjustment, time)),
        _ => Ok(None),
    }
}

fn moved_by(pts_adjustment: Ticks, time: SpliceTime) -> Option<Ticks>
    ensures { result ≡ moved_by pts_adjustment.0 time }
{
    match time {
        SpliceTime::Given(ticks) => Some(ticks.clock_sum(pts_adjustment)),
        _ => None,
    }
}

// Whether the section passes the first DVB-DASH check: a splice insert or a time signal.
pub fn dvb(section: &[u8]) -> Result<bool, Refusal>
    ensures { result ≡ says.dvb section.now }
{
    opening::open(section)?;
    // splice_command_type
    Ok(matches!(bits::octet(section, 13), 0x05 | 0x06))
}
