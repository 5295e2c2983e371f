// A known descriptor and its UPID, by the byte at which it stands.
ghost use Rattle.std.specs.Prelude.{◌≡◌, ◌≤◌};
ghost use Rattle.descriptor_reading.specs.Places.{segmentation_at, descriptor_at, upid_at};

use crate::answers::{Descriptor, Part};
use units::{EventId, Refusal};

pub(crate) fn descriptor(s: &[u8], at: usize) -> Result<Descriptor, Refusal>
    requires { at ≤ 4090 }
    ensures { result ≡ descriptor_at s.now at }
{
    match bits::octet(s, at) {
        0 => Ok(Descriptor::Avail(bits::quad(s, at + 6) as u32)),
        1 => Ok(Descriptor::Dtmf {
            preroll: bits::octet(s, at + 6),
            dtmf_count: bits::read(s, 8 * (at + 7), 3) as u8,
        }),
        2 => {
            let descriptor_length = bits::octet(s, at + 1) as usize;
            Ok(segmentation(s, at + 6, at + 2 + descriptor_length))
        }
        3 => Ok(Descriptor::Time {
            tai_seconds: bits::read(s, 8 * (at + 6), 48),
            tai_ns: bits::quad(s, at + 12) as u32,
            utc_offset: bits::pair(s, at + 16) as u16,
        }),
        4 => Ok(Descriptor::Audio(bits::read(s, 8 * (at + 6), 4) as u8)),
        _ => Err(Refusal::NotHere),
    }
}

// A segmentation descriptor, by the byte after its identifier; a cancelled one has its id only.
fn segmentation(s: &[u8], at: usize, end: usize) -> Descriptor
    requires { at ≤ 4096 }
    ensures { result ≡ segmentation_at s.now at end }
{
    // segmentation_event_cancel_indicator
    if bits::flag(s, 8 * (at + 4)) {
        return Descriptor::CancelledSegmentation(EventId(bits::quad(s, at) as u32));
    }
    Descriptor::Segmentation(segmentation_reading::uncancelled(s, at as u16, end))
}

// Table 20, where the UPID lies.
pub(crate) fn upid(s: &[u8], at: usize) -> Result<Part, Refusal>
    requires { at ≤ 4090 }
    ensures { result ≡ upid_at s.now at }
{
    if bits::octet(s, at) != 2 {
        return Err(Refusal::NotHere);
    }
    // segmentation_event_cancel_indicator
    if bits::flag(s, 8 * (at + 10)) {
        return Err(Refusal::NotHere);
    }
    let place = segmentation_reading::upid_place(s, (at + 6) as u16);
    let segmentation_upid_length = bits::octet(s, place + 1) as usize;
    Ok(Part {
        at: place + 2,
        length: segmentation_upid_length,
    })
}
