// The parts of a command, by the bytes that hold them.
ghost use Rattle.std.specs.Prelude.{◌≡◌, ◌≤◌, length};
ghost use Rattle.command_reading.specs.Places.{time_at, break_at, avails_at, insert_time_at, insert_mode_at, insert_at};

use crate::answers::{Avails, BreakDuration, Command, Insert, SpliceTime};
use units::{EventId, Mode, Ticks};

// Table 14, from the first byte on.
pub fn splice_time(s: &[u8]) -> SpliceTime
    ensures { result ≡ time_at s.now 0 }
{
    if bits::flag(s, 0) {
        SpliceTime::Given(Ticks(bits::read(s, 7, 33)))
    } else {
        SpliceTime::NotGiven
    }
}

// Table 15, from the first byte on, where there is one.
fn break_duration(s: &[u8], duration_flag: bool) -> Option<BreakDuration>
    ensures { result ≡ break_at s.now 0 duration_flag }
{
    if duration_flag {
        Some(BreakDuration {
            auto_return: bits::flag(s, 0),
            duration: Ticks(bits::read(s, 7, 33)),
        })
    } else {
        None
    }
}

// Tables 9 and 10, the end of an event, whose last nine bytes stand first.
pub fn avails(s: &[u8], duration_flag: bool) -> Avails
    ensures { result ≡ avails_at s.now 9 duration_flag }
{
    let break_duration = break_duration(s, duration_flag);
    Avails {
        break_duration,
        unique_program_id: bits::pair(s, 5) as u16,
        avail_num: bits::octet(s, 7),
        avails_expected: bits::octet(s, 8),
    }
}

// Table 10, the splice insert that stands from byte 14 up to `end`.
pub(crate) fn insert(s: &[u8], end: usize) -> Command
    requires { (20 ≤ length s.now) × (9 ≤ end) × (end ≤ length s.now) }
    ensures { result ≡ insert_at s.now end }
{
    let splice_event_id = EventId(bits::quad(s, 14) as u32);
    // splice_event_cancel_indicator
    if bits::flag(s, 144) {
        return Command::CancelledInsert(splice_event_id);
    }
    let time = insert_time(s);
    let mode = insert_mode(s);
    let last = end - 9;
    let avails = avails(&s[last..], bits::flag(s, 154));
    Command::Insert(Insert {
        splice_event_id,
        out_of_network_indicator: bits::flag(s, 152),
        time,
        mode,
        avails,
    })
}

// When the splice takes place: each component has a time of its own.
fn insert_time(s: &[u8]) -> SpliceTime
    requires { 20 ≤ length s.now }
    ensures { result ≡ insert_time_at s.now }
{
    // splice_immediate_flag
    if bits::flag(s, 155) {
        return SpliceTime::Immediate;
    }
    // program_splice_flag
    if !bits::flag(s, 153) {
        return SpliceTime::NotGiven;
    }
    splice_time(&s[20..])
}

fn insert_mode(s: &[u8]) -> Mode
    ensures { result ≡ insert_mode_at s.now }
{
    // program_splice_flag
    if bits::flag(s, 153) {
        Mode::Program
    } else {
        Mode::Components(bits::read(s, 160, 8) as u8)
    }
}
