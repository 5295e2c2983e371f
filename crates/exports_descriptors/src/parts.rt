// What known descriptors hold that is asked for by number: characters and components, and where a UPID lies.
#![tactic(auto, using(wire::proofs::Given::refusals))]

ghost use Rattle.std.specs.Prelude.{◌≡◌};
ghost use Rattle.reading.specs.Reading as says;
ghost use Rattle.wire.specs.Wire.{wire};
ghost use Rattle.wire.specs.Given.{given, given_into};
ghost use Rattle.exports_descriptors.specs.Parts.{dtmf_char_numbers, segmentation_component_numbers, audio_component_numbers, upid_numbers};

use descriptor_reading::{AudioComponent, Part, SegmentationComponent};
use units::Refusal;

// Character m of known descriptor n, a DTMF descriptor.
#[unsafe(no_mangle)]
pub extern "C" fn timpanimist_dtmf_char(section: &[u8], n: usize, m: usize, out: &mut [u64]) -> u64
    ensures { (result ≡ wire (given (dtmf_char_numbers (says.dtmf_char section.now n m)) out.old)) × (out.new ≡ given_into (dtmf_char_numbers (says.dtmf_char section.now n m)) out.old) }
{
    let answer = reading::dtmf_char(section, n, m);
    wire::number(dtmf_char(answer, out))
}

// Component m of known descriptor n, a segmentation descriptor: its tag, and its offset.
#[unsafe(no_mangle)]
pub extern "C" fn timpanimist_segmentation_component(
    section: &[u8],
    n: usize,
    m: usize,
    out: &mut [u64],
) -> u64
    ensures { (result ≡ wire (given (segmentation_component_numbers (says.segmentation_component section.now n m)) out.old)) × (out.new ≡ given_into (segmentation_component_numbers (says.segmentation_component section.now n m)) out.old) }
{
    let answer = reading::segmentation_component(section, n, m);
    wire::number(segmentation_component(answer, out))
}

// Component m of known descriptor n, an audio descriptor.
#[unsafe(no_mangle)]
pub extern "C" fn timpanimist_audio_component(
    section: &[u8],
    n: usize,
    m: usize,
    out: &mut [u64],
) -> u64
    ensures { (result ≡ wire (given (audio_component_numbers (says.audio_component section.now n m)) out.old)) × (out.new ≡ given_into (audio_component_numbers (says.audio_component section.now n m)) out.old) }
{
    let answer = reading::audio_component(section, n, m);
    wire::number(audio_component(answer, out))
}

// Where the UPID bytes of known descriptor n lie in the section, and how many they are.
#[unsafe(no_mangle)]
pub extern "C" fn timpanimist_upid(section: &[u8], n: usize, out: &mut [u64]) -> u64
    ensures { (result ≡ wire (given (upid_numbers (says.upid section.now n)) out.old)) × (out.new ≡ given_into (upid_numbers (says.upid section.now n)) out.old) }
{
    let answer = reading::upid(section, n);
    wire::number(upid(answer, out))
}

// A character of a DTMF descriptor as a number, written to the front of out.
fn dtmf_char(answer: Result<u8, Refusal>, out: &mut [u64]) -> Result<usize, Refusal>
    ensures { (result ≡ given (dtmf_char_numbers answer) out.old) × (out.new ≡ given_into (dtmf_char_numbers answer) out.old) }
{
    let character = answer?;
    wire::give(&[u64::from(character)], out)
}

// A component of a segmentation descriptor, in the same way.
fn segmentation_component(
    answer: Result<SegmentationComponent, Refusal>,
    out: &mut [u64],
) -> Result<usize, Refusal>
    ensures { (result ≡ given (segmentation_component_numbers answer) out.old) × (out.new ≡ given_into (segmentation_component_numbers answer) out.old) }
{
    let component = answer?;
    let tag = u64::from(component.component_tag);
    wire::give(&[tag, component.pts_offset.0], out)
}

// A component of an audio descriptor, in the same way.
fn audio_component(
    answer: Result<AudioComponent, Refusal>,
    out: &mut [u64],
) -> Result<usize, Refusal>
    ensures { (result ≡ given (audio_component_numbers answer) out.old) × (out.new ≡ given_into (audio_component_numbers answer) out.old) }
{
    let component = answer?;
    wire::give(
        &[
            u64::from(component.component_tag),
            u64::from(component.iso_code),
            u64::from(component.bit_stream_mode),
            u64::from(component.num_channels),
            wire::flag(component.full_srvc_audio),
        ],
        out,
    )
}

// Where the UPID bytes of a known descriptor lie, and how many they are, in the same way.
fn upid(answer: Result<Part, Refusal>, out: &mut [u64]) -> Result<usize, Refusal>
    ensures { (result ≡ given (upid_numbers answer) out.old) × (out.new ≡ given_into (upid_numbers answer) out.old) }
{
    let part = answer?;
    wire::give(&[part.at as u64, part.length as u64], out)
}
