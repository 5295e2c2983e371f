// The typed questions on the command of a section. Every question takes any bytes, and is refused by rows 1 to 10, then by
// SEALED, then by NOTHERE, where there is no such part.
#![tactic(auto)]

ghost use Rattle.std.specs.Prelude.{◌≡◌};
ghost use Rattle.command_questions.specs.Questions as says;

use command_reading::{Command, Event, EventComponent, InsertComponent};
use units::Refusal;

// The command.
pub fn command(section: &[u8]) -> Result<Command, Refusal>
    ensures { result ≡ says.command section.now }
{
    opening::open(section).and_then(|_| command_reading::command(section))
}

// Component n of an insert.
pub fn insert_component(section: &[u8], n: usize) -> Result<InsertComponent, Refusal>
    ensures { result ≡ says.insert_component section.now n }
{
    opening::open(section).and_then(|_| command_lists::insert_component(section, n))
}

// Event n of a schedule.
pub fn schedule_event(section: &[u8], n: usize) -> Result<Event, Refusal>
    ensures { result ≡ says.schedule_event section.now n }
{
    opening::open(section).and_then(|_| command_events::schedule_event(section, n))
}

// Component m of event n of a schedule.
pub fn event_component(section: &[u8], n: usize, m: usize) -> Result<EventComponent, Refusal>
    ensures { result ≡ says.event_component section.now n m }
{
    opening::open(section).and_then(|_| command_events::event_component(section, n, m))
}

// Byte n of a private command, after its identifier.
pub fn private_byte(section: &[u8], n: usize) -> Result<u8, Refusal>
    ensures { result ≡ says.private_byte section.now n }
{
    opening::open(section).and_then(|_| command_lists::private_byte(section, n))
}
