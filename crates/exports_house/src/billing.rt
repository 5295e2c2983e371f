// The break that a section opens, and the label that it is billed under.
#![tactic(auto, using(wire::proofs::Given::refusals))]

ghost use Rattle.std.specs.Prelude.{◌≡◌, length};
ghost use Rattle.breaks.specs.Breaks.{break_answer};
ghost use Rattle.labels.specs.Labels.{bill_label};
ghost use Rattle.wire.specs.Wire.{wire};
ghost use Rattle.wire.specs.Given.{given, given_into};
ghost use Rattle.exports_house.specs.Billing.{break_answer_numbers, label_numbers};

use descriptor_reading::Part;
use house::Break;
use units::Refusal;

// Whether the section opens a break, and how long it lasts.
#[unsafe(no_mangle)]
pub extern "C" fn timpanimist_break(section: &[u8], out: &mut [u64]) -> u64
    ensures { (result ≡ wire (given (break_answer_numbers (break_answer section.now)) out.old)) × (out.new ≡ given_into (break_answer_numbers (break_answer section.now)) out.old) }
{
    let answer = house::break_answer(section);
    wire::number(break_answer(answer, out))
}

// Which bytes the break is billed under: in which slice they lie, 0 the section and 1 the house's name, where in it, and how
// many they are.
#[unsafe(no_mangle)]
pub extern "C" fn timpanimist_bill_label(section: &[u8], house: &[u8], out: &mut [u64]) -> u64
    ensures { (result ≡ wire (given (label_numbers (length house.now) (bill_label section.now)) out.old)) × (out.new ≡ given_into (label_numbers (length house.now) (bill_label section.now)) out.old) }
{
    let answer = house::label(section);
    wire::number(label(answer, house.len(), out))
}

// Whether a cue opens a break, and how long it lasts, as numbers written to the front of out.
fn break_answer(answer: Result<Break, Refusal>, out: &mut [u64]) -> Result<usize, Refusal>
    ensures { (result ≡ given (break_answer_numbers answer) out.old) × (out.new ≡ given_into (break_answer_numbers answer) out.old) }
{
    match answer? {
        Break::None => wire::give(&[0], out),
        Break::Measured(ticks) => wire::give(&[1, ticks.0], out),
        Break::Unmeasured => wire::give(&[2], out),
        Break::Unread => wire::give(&[3], out),
    }
}

// In which slice the bill label lies, the section or the house's name of so many bytes, where in it, and how long it is, in the same
// way.
fn label(answer: Option<Part>, house: usize, out: &mut [u64]) -> Result<usize, Refusal>
    ensures { (result ≡ given (label_numbers house answer) out.old) × (out.new ≡ given_into (label_numbers house answer) out.old) }
{
    match answer {
        Some(part) => wire::give(&[0, part.at as u64, part.length as u64], out),
        None => wire::give(&[1, 0, house as u64], out),
    }
}
