// The known descriptors of a section, counted and by number.
#![tactic(auto, using(wire::proofs::Given::refusals))]

ghost use Rattle.std.specs.Prelude.{◌≡◌};
ghost use Rattle.reading.specs.Reading as says;
ghost use Rattle.wire.specs.Wire.{wire};
ghost use Rattle.wire.specs.Given.{given, given_into};
ghost use Rattle.exports_descriptors.specs.Known.{known_count_numbers, descriptor_numbers};

use descriptor_reading::Descriptor;
use units::Refusal;

// How many known descriptors a section has.
#[unsafe(no_mangle)]
pub extern "C" fn timpanimist_known_count(section: &[u8], out: &mut [u64]) -> u64
    ensures { (result ≡ wire (given (known_count_numbers (says.known_count section.now)) out.old)) × (out.new ≡ given_into (known_count_numbers (says.known_count section.now)) out.old) }
{
    let answer = reading::known_count(section);
    wire::number(known_count(answer, out))
}

// Known descriptor n: its case, and then the values of the case.
#[unsafe(no_mangle)]
pub extern "C" fn timpanimist_known_descriptor(section: &[u8], n: usize, out: &mut [u64]) -> u64
    ensures { (result ≡ wire (given (descriptor_numbers (says.known_descriptor section.now n)) out.old)) × (out.new ≡ given_into (descriptor_numbers (says.known_descriptor section.now n)) out.old) }
{
    let answer = reading::known_descriptor(section, n);
    wire::number(known_descriptor(answer, out))
}

// The count of known descriptors as a number, written to the front of out.
fn known_count(answer: Result<usize, Refusal>, out: &mut [u64]) -> Result<usize, Refusal>
    ensures { (result ≡ given (known_count_numbers answer) out.old) × (out.new ≡ given_into (known_count_numbers answer) out.old) }
{
    let count = answer?;
    wire::give(&[count as u64], out)
}

// A known descriptor as numbers, in the same way.
fn known_descriptor(answer: Result<Descriptor, Refusal>, out: &mut [u64]) -> Result<usize, Refusal>
    ensures { (result ≡ given (descriptor_numbers answer) out.old) × (out.new ≡ given_into (descriptor_numbers answer) out.old) }
{
    match answer? {
        Descriptor::Avail(id) => wire::give(&[0, u64::from(id)], out),
        Descriptor::Dtmf {
            preroll,
            dtmf_count,
        } => wire::give(&[1, u64::from(preroll), u64::from(dtmf_count)], out),
        Descriptor::Segmentation(segmentation) => segmentation_numbers::give_segmentation(
            segmentation,
            out,
        ),
        Descriptor::CancelledSegmentation(id) => wire::give(&[3, u64::from(id.0)], out),
        Descriptor::Time {
            tai_seconds,
            tai_ns,
            utc_offset,
        } => wire::give(
            &[4, tai_seconds, u64::from(tai_ns), u64::from(utc_offset)],
            out,
        ),
        Descriptor::Audio(audio_count) => wire::give(&[5, u64::from(audio_count)], out),
    }
}
