// What the command of a section says. The functions take any bytes: where these have no command that follows its table
// and its length, it is refused.
#![tactic(auto)]

mod answers;
mod parts;

ghost use Rattle.std.specs.Prelude.{◌≡◌};
ghost use Rattle.grammar.specs.Meaning.{end_of};
ghost use Rattle.grammar.specs.Ended.{outcome};
ghost use Rattle.command_reading.specs.Command.{command_reading};
ghost use Rattle.command_reading.specs.Command as says;

pub use answers::{
    Avails, BreakDuration, Command, Event, EventComponent, EventTime, Insert, InsertComponent,
    ScheduledEvent, SpliceTime,
};
pub use parts::{avails, splice_time};
pub use units::Mode;
use units::{MOST_SECTION, Refusal};

// The command of the section.
pub fn command(s: &[u8]) -> Result<Command, Refusal>
    ensures { result ≡ says.command s.now }
{
    let end = end(s).ok_or(Refusal::Command)?;
    match s[13] {
        0x00 => Ok(Command::Null),
        0x04 => Ok(Command::Schedule(s[14])),
        0x05 => Ok(parts::insert(s, end)),
        0x06 => Ok(Command::TimeSignal(splice_time(&s[14..]))),
        0x07 => Ok(Command::BandwidthReservation),
        0xFF => Ok(Command::Private(bits::quad(s, 14) as u32, end - 18)),
        _ => Ok(Command::Unread),
    }
}

// Where the command ends, in no more bytes than a section may have.
pub fn end(s: &[u8]) -> Option<usize>
    ensures { outcome result ≡ end_of (command_reading s.now) }
{
    if MOST_SECTION < s.len() {
        return None;
    }
    commands::command_end(s)
}
