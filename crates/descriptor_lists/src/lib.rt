// The lists of the known descriptors of a loop, by number: the characters and components of known descriptor n, all
// numbered from 0.
#![tactic(auto)]

mod parts;

ghost use Rattle.std.specs.Prelude.{◌≡◌};
ghost use Rattle.known_walk.specs.Known.{known_trace};
ghost use Rattle.descriptor_reading.specs.Descriptor.{dtmf_char_of, segmentation_component_of, audio_component_of};

use descriptor_reading::{AudioComponent, SegmentationComponent};
use descriptors::Cursor;
use units::Refusal;

// Character m of known descriptor n.
pub fn dtmf_char(s: &[u8], cursor: Cursor, n: usize, m: usize) -> Result<u8, Refusal>
    ensures { result ≡ dtmf_char_of (known_trace s.now cursor n) m }
{
    let at = known_walk::known(s, cursor, n).ok_or(Refusal::NotHere)?;
    parts::dtmf_char(s, at, m)
}

// Component m of known descriptor n, a segmentation descriptor.
pub fn segmentation_component(
    s: &[u8],
    cursor: Cursor,
    n: usize,
    m: usize,
) -> Result<SegmentationComponent, Refusal>
    ensures { result ≡ segmentation_component_of (known_trace s.now cursor n) m }
{
    let at = known_walk::known(s, cursor, n).ok_or(Refusal::NotHere)?;
    parts::segmentation_component(s, at, m)
}

// Component m of known descriptor n, an audio descriptor.
pub fn audio_component(
    s: &[u8],
    cursor: Cursor,
    n: usize,
    m: usize,
) -> Result<AudioComponent, Refusal>
    ensures { result ≡ audio_component_of (known_trace s.now cursor n) m }
{
    let at = known_walk::known(s, cursor, n).ok_or(Refusal::NotHere)?;
    parts::audio_component(s, at, m)
}
