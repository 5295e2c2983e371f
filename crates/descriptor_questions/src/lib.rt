// The typed questions on the lists of a section's known descriptors. Every question takes any bytes, and is refused by rows 1 to
// 10, then by SEALED, then by NOTHERE, where there is no such part.
#![tactic(auto)]

ghost use Rattle.std.specs.Prelude.{◌≡◌};
ghost use Rattle.descriptor_questions.specs.Questions as says;

use descriptor_reading::{AudioComponent, SegmentationComponent};
use units::Refusal;

// Character m of known descriptor n.
#[tactic(auto, unfolding(crate::specs::Questions::dtmf_char, opening::specs::First::asked))]
pub fn dtmf_char(section: &[u8], n: usize, m: usize) -> Result<u8, Refusal>
    ensures { result ≡ says.dtmf_char section.now n m }
{
    descriptor_lists::dtmf_char(section, opening::open(section)?, n, m)
}

// Component m of known descriptor n, a segmentation descriptor.
#[tactic(auto, unfolding(crate::specs::Questions::segmentation_component, opening::specs::First::asked))]
pub fn segmentation_component(
    section: &[u8],
    n: usize,
    m: usize,
) -> Result<SegmentationComponent, Refusal>
    ensures { result ≡ says.segmentation_component section.now n m }
{
    descriptor_lists::segmentation_component(section, opening::open(section)?, n, m)
}

// Component m of known descriptor n, an audio descriptor.
#[tactic(auto, unfolding(crate::specs::Questions::audio_component, opening::specs::First::asked))]
pub fn audio_component(section: &[u8], n: usize, m: usize) -> Result<AudioComponent, Refusal>
    ensures { result ≡ says.audio_component section.now n m }
{
    descriptor_lists::audio_component(section, opening::open(section)?, n, m)
}
