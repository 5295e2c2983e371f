// The events of a schedule and their parts, by the byte at which they stand.
ghost use Rattle.std.specs.Prelude.{◌≡◌, ◌≤◌, length};
ghost use Rattle.command_events.specs.Places.{event_time_at, event_at, components_at, event_component_at, EventIs};

use command_reading::{Event, EventComponent, EventTime, ScheduledEvent};
use units::{EventId, Refusal};

// Where event n of the section's schedule stands: from one byte up to another.
pub(crate) fn event_span(s: &[u8], n: usize) -> Option<(usize, usize)>
    ensures { EventIs s.now n result }
{
    let end = command_reading::end(s)?;
    if s[13] != 0x04 {
        return None;
    }
    // splice_count
    if (s[14] as usize) <= n {
        return None;
    }
    let from = commands::schedule_event_at(s, 15, end, n)?;
    let to = commands::schedule_event_at(s, 15, end, n + 1)?;
    Some((from, to))
}

// Table 9, the event that stands from byte `at` up to `end`.
pub(crate) fn event(s: &[u8], at: usize, end: usize) -> Event
    requires { (at ≤ 4096) × (9 ≤ end) × (end ≤ length s.now) }
    ensures { result ≡ event_at s.now at end }
{
    let splice_event_id = EventId(bits::quad(s, at) as u32);
    let splice_event_cancel_indicator = bits::flag(s, 8 * (at + 4));
    if splice_event_cancel_indicator {
        return Event::Cancelled(splice_event_id);
    }
    let time = event_time(s, at);
    let last = end - 9;
    let avails = command_reading::avails(&s[last..], bits::flag(s, 8 * (at + 5) + 2));
    Event::Scheduled(ScheduledEvent {
        splice_event_id,
        out_of_network_indicator: bits::flag(s, 8 * (at + 5)),
        time,
        avails,
    })
}

fn event_time(s: &[u8], at: usize) -> EventTime
    requires { at ≤ 4096 }
    ensures { result ≡ event_time_at s.now at }
{
    // program_splice_flag
    if bits::flag(s, 8 * (at + 5) + 1) {
        EventTime::Program(bits::quad(s, at + 6) as u32)
    } else {
        EventTime::Components(bits::read(s, 8 * (at + 6), 8) as u8)
    }
}

// How many components the event from byte `at` on has.
fn component_count(s: &[u8], at: usize) -> usize
    requires { at ≤ 4096 }
    ensures { result ≡ components_at s.now at }
{
    // splice_event_cancel_indicator
    if bits::flag(s, 8 * (at + 4)) {
        return 0;
    }
    // program_splice_flag
    if bits::flag(s, 8 * (at + 5) + 1) {
        0
    } else {
        bits::read(s, 8 * (at + 6), 8) as usize
    }
}

// Table 9, component m of the event that stands from byte `at` on.
pub(crate) fn event_component(s: &[u8], at: usize, m: usize) -> Result<EventComponent, Refusal>
    requires { at ≤ 4096 }
    ensures { result ≡ event_component_at s.now at m }
{
    if component_count(s, at) <= m {
        return Err(Refusal::NotHere);
    }
    let place = at + 7 + 5 * m;
    Ok(EventComponent {
        component_tag: bits::read(s, 8 * place, 8) as u8,
        utc_splice_time: bits::quad(s, place + 1) as u32,
    })
}
