// The events of a section's schedule and their components, by number from 0. The functions take any bytes: where these
// have no command that follows its table and its length, there is no event.
#![tactic(auto)]

mod parts;

ghost use Rattle.std.specs.Prelude.{◌≡◌};
ghost use Rattle.command_reading.specs.Command.{command_trace};
ghost use Rattle.command_events.specs.Events.{event_of, event_component_of};

use command_reading::{Event, EventComponent};
use units::Refusal;

// Event n.
pub fn schedule_event(s: &[u8], n: usize) -> Result<Event, Refusal>
    ensures { result ≡ event_of (command_trace s.now) n }
{
    let (at, end) = parts::event_span(s, n).ok_or(Refusal::NotHere)?;
    Ok(parts::event(s, at, end))
}

// Component m of event n.
pub fn event_component(s: &[u8], n: usize, m: usize) -> Result<EventComponent, Refusal>
    ensures { result ≡ event_component_of (command_trace s.now) n m }
{
    let (at, _) = parts::event_span(s, n).ok_or(Refusal::NotHere)?;
    parts::event_component(s, at, m)
}
