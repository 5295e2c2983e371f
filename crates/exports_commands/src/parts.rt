// What commands hold that is asked for by number: components of an insert and of an event, bytes of a private command.
#![tactic(auto, using(wire::proofs::Given::refusals))]

ghost use Rattle.std.specs.Prelude.{◌≡◌};
ghost use Rattle.command_questions.specs.Questions as says;
ghost use Rattle.wire.specs.Wire.{wire};
ghost use Rattle.wire.specs.Given.{given, given_into};
ghost use Rattle.exports_commands.specs.Parts.{insert_component_numbers, event_component_numbers, private_byte_numbers};

use command_reading::{EventComponent, InsertComponent};
use units::Refusal;

// Component n of a splice insert: its tag, and its time.
#[unsafe(no_mangle)]
pub extern "C" fn timpanimist_insert_component(section: &[u8], n: usize, out: &mut [u64]) -> u64
    ensures { (result ≡ wire (given (insert_component_numbers (says.insert_component section.now n)) out.old)) × (out.new ≡ given_into (insert_component_numbers (says.insert_component section.now n)) out.old) }
{
    let answer = command_questions::insert_component(section, n);
    wire::number(insert_component(answer, out))
}

// Component m of event n of a splice schedule: its tag, and its time.
#[unsafe(no_mangle)]
pub extern "C" fn timpanimist_event_component(
    section: &[u8],
    n: usize,
    m: usize,
    out: &mut [u64],
) -> u64
    ensures { (result ≡ wire (given (event_component_numbers (says.event_component section.now n m)) out.old)) × (out.new ≡ given_into (event_component_numbers (says.event_component section.now n m)) out.old) }
{
    let answer = command_questions::event_component(section, n, m);
    wire::number(event_component(answer, out))
}

// Byte n of a private command, after its identifier.
#[unsafe(no_mangle)]
pub extern "C" fn timpanimist_private_byte(section: &[u8], n: usize, out: &mut [u64]) -> u64
    ensures { (result ≡ wire (given (private_byte_numbers (says.private_byte section.now n)) out.old)) × (out.new ≡ given_into (private_byte_numbers (says.private_byte section.now n)) out.old) }
{
    let answer = command_questions::private_byte(section, n);
    wire::number(private_byte(answer, out))
}

// A component of an insert as numbers, written to the front of out.
fn insert_component(
    answer: Result<InsertComponent, Refusal>,
    out: &mut [u64],
) -> Result<usize, Refusal>
    ensures { (result ≡ given (insert_component_numbers answer) out.old) × (out.new ≡ given_into (insert_component_numbers answer) out.old) }
{
    let InsertComponent {
        component_tag,
        time,
    } = answer?;
    command_numbers::give_timed(u64::from(component_tag), time, out)
}

// A component of an event, in the same way.
fn event_component(
    answer: Result<EventComponent, Refusal>,
    out: &mut [u64],
) -> Result<usize, Refusal>
    ensures { (result ≡ given (event_component_numbers answer) out.old) × (out.new ≡ given_into (event_component_numbers answer) out.old) }
{
    let component = answer?;
    let tag = u64::from(component.component_tag);
    wire::give(&[tag, u64::from(component.utc_splice_time)], out)
}

// A byte of a private command, in the same way.
fn private_byte(answer: Result<u8, Refusal>, out: &mut [u64]) -> Result<usize, Refusal>
    ensures { (result ≡ given (private_byte_numbers answer) out.old) × (out.new ≡ given_into (private_byte_numbers answer) out.old) }
{
    let byte = answer?;
    wire::give(&[u64::from(byte)], out)
}
