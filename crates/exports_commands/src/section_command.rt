// The command of a section.
#![tactic(auto, using(wire::proofs::Given::refusals))]

ghost use Rattle.std.specs.Prelude.{◌≡◌};
ghost use Rattle.command_questions.specs.Questions as says;
ghost use Rattle.wire.specs.Wire.{wire};
ghost use Rattle.wire.specs.Given.{these, given, given_into};
ghost use Rattle.exports_commands.specs.Commands.{command_numbers, insert_numbers};

use crate::lists;
use command_reading::{Command, Insert};
use units::Refusal;

// The command of a section, as numbers: its case, and then the values of the case.
#[unsafe(no_mangle)]
pub extern "C" fn timpanimist_command(section: &[u8], out: &mut [u64]) -> u64
    ensures { (result ≡ wire (given (command_numbers (says.command section.now)) out.old)) × (out.new ≡ given_into (command_numbers (says.command section.now)) out.old) }
{
    let answer = command_questions::command(section);
    wire::number(command(answer, out))
}

// A command as numbers, written to the front of out.
fn command(answer: Result<Command, Refusal>, out: &mut [u64]) -> Result<usize, Refusal>
    ensures { (result ≡ given (command_numbers answer) out.old) × (out.new ≡ given_into (command_numbers answer) out.old) }
{
    match answer? {
        Command::Null => wire::give(&[0], out),
        Command::Schedule(splice_count) => wire::give(&[1, u64::from(splice_count)], out),
        Command::Insert(insert) => give_insert(insert, out),
        Command::CancelledInsert(id) => wire::give(&[3, u64::from(id.0)], out),
        Command::TimeSignal(time) => command_numbers::give_timed(4, time, out),
        Command::BandwidthReservation => wire::give(&[5], out),
        Command::Private(identifier, count) => wire::give(
            &[6, u64::from(identifier), count as u64],
            out,
        ),
        Command::Unread => wire::give(&[7], out),
    }
}

fn give_insert(insert: Insert, out: &mut [u64]) -> Result<usize, Refusal>
    ensures { (result ≡ given (these (insert_numbers insert)) out.old) × (out.new ≡ given_into (these (insert_numbers insert)) out.old) }
{
    let mut list = [0u64; 13];
    let n = lists::insert(&mut list, 0, insert);
    wire::give(&list[..n], out)
}
