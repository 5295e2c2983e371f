// The break of a section: whether it opens one, and how long that lasts. And the duration of its DASH event.
#![tactic(auto)]

mod dash;
mod signal;

ghost use Rattle.std.specs.Prelude.{◌≡◌, List, ◌≤◌, length};
ghost use Rattle.command_reading.specs.Places.{insert_at};
ghost use Rattle.command_reading.specs.Command as command_says;
ghost use Rattle.opening.proofs.Asked.{IsOpen};
ghost use Rattle.breaks.specs.Signals.{Reading, known_readings};
ghost use Rattle.breaks.specs.Breaks.{refused_break, break_by, break_answer};

pub use dash::dash_duration;
use descriptors::Cursor;
pub use signal::{Measure, Signal};
use units::{Refusal, Ticks};

// Whether a cue opens a break, and how long it lasts.
#[derive(Clone, Copy)]
pub enum Break {
    None,
    Measured(Ticks),
    // A break whose cue says no duration.
    Unmeasured,
    // Sealed, or a command of a type that the standard does not have.
    Unread,
}

// Whether the section opens a break, and how long it lasts.
pub fn break_answer(section: &[u8]) -> Result<Break, Refusal>
    ensures { result ≡ break_answer section.now }
{
    match opening::open(section) {
        Ok(cursor) => Ok(open_break(section, cursor)),
        Err(refusal) => refused_break(refusal),
    }
}

// A sealed section is unread.
fn refused_break(refusal: Refusal) -> Result<Break, Refusal>
    ensures { result ≡ refused_break refusal }
{
    match refusal {
        Refusal::Sealed => Ok(Break::Unread),
        _ => Err(refusal),
    }
}

// The break of an open section, by splice_command_type. Its command ends before the two bytes of descriptor_loop_length.
fn open_break(s: &[u8], cursor: Cursor) -> Break
    requires { IsOpen s.now cursor }
    ensures { Ok result ≡ break_by (command_says.command s.now) (known_readings s.now cursor) }
{
    match s[13] {
        0x05 => insert_break(s, cursor.at - 2),
        0x06 => signal::walk(s, cursor).opening(),
        0x00 | 0x04 | 0x07 | 0xFF => Break::None,
        _ => Break::Unread,
    }
}

// The break of the insert that stands from byte 14 up to `end`.
fn insert_break(s: &[u8], end: usize) -> Break
    requires { (9 ≤ end) × (end ≤ length s.now) × (length s.now ≤ 4096) }
    ensures { (ds : List Reading) → Ok result ≡ break_by (Ok (insert_at s.now end)) ds }
{
    // splice_event_cancel_indicator
    if bits::flag(s, 144) {
        return Break::None;
    }
    // out_of_network_indicator
    if !bits::flag(s, 152) {
        return Break::None;
    }
    // duration_flag
    if !bits::flag(s, 154) {
        return Break::Unmeasured;
    }
    Break::Measured(Ticks(bits::read(s, 8 * (end - 9) + 7, 33)))
}
