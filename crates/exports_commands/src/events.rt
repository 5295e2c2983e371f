// The events of a splice schedule.
#![tactic(auto, using(wire::proofs::Given::refusals))]

ghost use Rattle.std.specs.Prelude.{◌≡◌};
ghost use Rattle.command_questions.specs.Questions as says;
ghost use Rattle.wire.specs.Wire.{wire};
ghost use Rattle.wire.specs.Given.{these, given, given_into};
ghost use Rattle.exports_commands.specs.Events.{event_numbers, scheduled_numbers};

use crate::lists;
use command_reading::{Event, ScheduledEvent};
use units::Refusal;

// Event n of a splice schedule: its case, and then the values of the case.
#[unsafe(no_mangle)]
pub extern "C" fn timpanimist_schedule_event(section: &[u8], n: usize, out: &mut [u64]) -> u64
    ensures { (result ≡ wire (given (event_numbers (says.schedule_event section.now n)) out.old)) × (out.new ≡ given_into (event_numbers (says.schedule_event section.now n)) out.old) }
{
    let answer = command_questions::schedule_event(section, n);
    wire::number(schedule_event(answer, out))
}

// An event as numbers, written to the front of out.
fn schedule_event(answer: Result<Event, Refusal>, out: &mut [u64]) -> Result<usize, Refusal>
    ensures { (result ≡ given (event_numbers answer) out.old) × (out.new ≡ given_into (event_numbers answer) out.old) }
{
    match answer? {
        Event::Scheduled(event) => give_scheduled(event, out),
        Event::Cancelled(id) => wire::give(&[1, u64::from(id.0)], out),
    }
}

fn give_scheduled(event: ScheduledEvent, out: &mut [u64]) -> Result<usize, Refusal>
    ensures { (result ≡ given (these (scheduled_numbers event)) out.old) × (out.new ≡ given_into (these (scheduled_numbers event)) out.old) }
{
    let mut list = [0u64; 11];
    let n = lists::scheduled(&mut list, 0, event);
    wire::give(&list[..n], out)
}
