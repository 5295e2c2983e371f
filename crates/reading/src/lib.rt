// The typed questions on a section. Every question takes any bytes, and is refused by rows 1 to 10, then by SEALED, then by
// NOTHERE, where there is no such part. Those on its command and on the lists of known descriptors are passed on.
#![tactic(auto)]

ghost use Rattle.std.specs.Prelude.{◌≡◌};
ghost use Rattle.reading.specs.Reading as says;

pub use command_questions::{
    command, event_component, insert_component, private_byte, schedule_event,
};
pub use descriptor_questions::{audio_component, dtmf_char, segmentation_component};
use descriptor_reading::{Descriptor, Part};
use units::Refusal;

// How many known descriptors there are; unknown ones are not counted.
#[tactic(auto, unfolding(crate::specs::Reading::known_count, opening::specs::First::asked))]
pub fn known_count(section: &[u8]) -> Result<usize, Refusal>
    ensures { result ≡ says.known_count section.now }
{
    Ok(known_walk::count(section, opening::open(section)?))
}

// Known descriptor n.
#[tactic(auto, unfolding(crate::specs::Reading::known_descriptor, opening::specs::First::asked))]
pub fn known_descriptor(section: &[u8], n: usize) -> Result<Descriptor, Refusal>
    ensures { result ≡ says.known_descriptor section.now n }
{
    descriptor_reading::known_descriptor(section, opening::open(section)?, n)
}

// Where the UPID bytes of known descriptor n lie, or why there are none.
#[tactic(auto, unfolding(crate::specs::Reading::upid, opening::specs::First::asked))]
pub fn upid(section: &[u8], n: usize) -> Result<Part, Refusal>
    ensures { result ≡ says.upid section.now n }
{
    descriptor_reading::upid(section, opening::open(section)?, n)
}

// The UPID bytes of known descriptor n, a part of the section; none where `upid` refuses.
pub fn upid_bytes<'a>(section: &'a [u8], n: usize) -> &'a [u8]
    ensures { result.now ≡ says.upid_bytes section.now n }
{
    let Ok(part) = upid(section, n) else {
        return &section[..0];
    };
    let end = part.at + part.length;
    &section[part.at..end]
}
