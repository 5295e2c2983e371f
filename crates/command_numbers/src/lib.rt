// The parts that several answers on commands share, as numbers: a time, and the avails.
#![tactic(auto)]

ghost use Rattle.std.specs.Prelude.{◌≡◌, ◌∷◌};
ghost use Rattle.wire.specs.Given.{these, given, given_into};
ghost use Rattle.wire.specs.Put.{put_place, put_into};
ghost use Rattle.command_numbers.specs.Numbers.{time_numbers, avails_numbers};

use command_reading::{Avails, SpliceTime};
use units::Refusal;

// A time, put into the list from place at on, as wire::put does it: where it does not fit nothing is written.
pub fn time(list: &mut [u64], at: usize, x: SpliceTime) -> usize
    ensures { (result ≡ put_place list.old at (time_numbers x)) × (list.new ≡ put_into list.old at (time_numbers x)) }
{
    match x {
        SpliceTime::Immediate => wire::put(list, at, &[0]),
        SpliceTime::NotGiven => wire::put(list, at, &[1]),
        SpliceTime::Given(ticks) => wire::put(list, at, &[2, ticks.0]),
    }
}

// A number and then a time, written to the front of out.
pub fn give_timed(first: u64, x: SpliceTime, out: &mut [u64]) -> Result<usize, Refusal>
    ensures { (result ≡ given (these (first ∷ time_numbers x)) out.old) × (out.new ≡ given_into (these (first ∷ time_numbers x)) out.old) }
{
    let mut list = [0u64; 3];
    let n = wire::put(&mut list, 0, &[first]);
    let n = time(&mut list, n, x);
    wire::give(&list[..n], out)
}

// The avails, put into the list from place at on, in the same way.
pub fn avails(list: &mut [u64], at: usize, x: Avails) -> usize
    ensures { (result ≡ put_place list.old at (avails_numbers x)) × (list.new ≡ put_into list.old at (avails_numbers x)) }
{
    let program = u64::from(x.unique_program_id);
    let num = u64::from(x.avail_num);
    let expected = u64::from(x.avails_expected);
    match x.break_duration {
        None => wire::put(list, at, &[0, program, num, expected]),
        Some(part) => wire::put(
            list,
            at,
            &[
                1,
                wire::flag(part.auto_return),
                part.duration.0,
                program,
                num,
                expected,
            ],
        ),
    }
}
