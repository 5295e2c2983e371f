// What the known descriptors of a loop say, which the walk from a cursor finds. They are numbered from 0, and unknown ones
// are not counted.
#![tactic(auto)]

mod answers;
mod parts;

ghost use Rattle.std.specs.Prelude.{◌≡◌};
ghost use Rattle.known_walk.specs.Known.{known_trace};
ghost use Rattle.descriptor_reading.specs.Descriptor.{descriptor_of, standing_upid};
ghost use Rattle.descriptor_reading.specs.Descriptor as says;

pub use answers::{AudioComponent, Descriptor, Part, SegmentationComponent};
use descriptors::Cursor;
pub use segmentation_reading::{Mode, Restrictions, Segmentation, SubSegment};
use units::Refusal;

// Where the UPID bytes of the known descriptor lie that stands at a cursor.
pub fn upid_at(s: &[u8], cursor: Cursor) -> Result<Part, Refusal>
    ensures { result ≡ standing_upid s.now cursor }
{
    let here = known_walk::standing(s, cursor).ok_or(Refusal::NotHere)?;
    parts::upid(s, here)
}

// Known descriptor n.
pub fn known_descriptor(s: &[u8], cursor: Cursor, n: usize) -> Result<Descriptor, Refusal>
    ensures { result ≡ descriptor_of (known_trace s.now cursor n) }
{
    let at = known_walk::known(s, cursor, n).ok_or(Refusal::NotHere)?;
    parts::descriptor(s, at)
}

// Where the UPID bytes of known descriptor n lie.
pub fn upid(s: &[u8], cursor: Cursor, n: usize) -> Result<Part, Refusal>
    ensures { result ≡ says.upid s.now cursor n }
{
    let at = known_walk::known(s, cursor, n).ok_or(Refusal::NotHere)?;
    parts::upid(s, at)
}
