// What a segmentation descriptor says (Table 20), by the byte after its identifier. Its place is a u16, and so no sum of
// places is too large.
#![tactic(auto)]

mod answers;

ghost use Rattle.std.specs.Prelude.{◌≡◌, ◌≤◌};
ghost use Rattle.segmentation_reading.specs.Places.{after_components, after_upid, upid_place, mode_at, delivery_at, duration_at, sub_segments_at, uncancelled_at};

pub use answers::{Restrictions, Segmentation, SubSegment};
pub use units::Mode;
use units::{EventId, Ticks};

// A descriptor that is not cancelled, which ends before byte `end`.
pub fn uncancelled(s: &[u8], at: u16, end: usize) -> Segmentation
    ensures { result ≡ uncancelled_at s.now at end }
{
    let start = at as usize;
    let segmentation_event_id = EventId(bits::quad(s, start) as u32);
    let mode = mode(s, start);
    let delivery = delivery(s, start);
    let duration = duration(s, at);
    let upid = upid_place(s, at);
    let after = type_place(s, at);
    let segmentation_type_id = bits::octet(s, after);
    let sub_segments = sub_segments(s, segmentation_type_id, after + 3, end);
    Segmentation {
        segmentation_event_id,
        mode,
        delivery,
        duration,
        segmentation_upid_type: bits::octet(s, upid),
        segmentation_upid_length: bits::octet(s, upid + 1),
        segmentation_type_id,
        segment_num: bits::octet(s, after + 1),
        segments_expected: bits::octet(s, after + 2),
        sub_segments,
    }
}

// Where the UPID's type stands.
pub fn upid_place(s: &[u8], at: u16) -> usize
    ensures { result ≡ upid_place s.now at }
{
    let start = at as usize;
    let after = after_components(s, start);
    // segmentation_duration_flag
    if bits::flag(s, 8 * (start + 5) + 1) {
        after + 5
    } else {
        after
    }
}

// Where segmentation_type_id stands.
pub fn type_place(s: &[u8], at: u16) -> usize
    ensures { result ≡ after_upid s.now (upid_place s.now at) }
{
    let upid = upid_place(s, at);
    let segmentation_upid_length = bits::octet(s, upid + 1) as usize;
    upid + 2 + segmentation_upid_length
}

// How long the segment lasts, where that is given.
pub fn duration(s: &[u8], at: u16) -> Option<Ticks>
    ensures { result ≡ duration_at s.now at }
{
    let start = at as usize;
    // segmentation_duration_flag
    if bits::flag(s, 8 * (start + 5) + 1) {
        Some(Ticks(bits::read(s, 8 * after_components(s, start), 40)))
    } else {
        None
    }
}

fn mode(s: &[u8], at: usize) -> Mode
    requires { at ≤ 65535 }
    ensures { result ≡ mode_at s.now at }
{
    // program_segmentation_flag
    if bits::flag(s, 8 * (at + 5)) {
        Mode::Program
    } else {
        Mode::Components(bits::octet(s, at + 6))
    }
}

// What the delivery is restricted to, if it is.
fn delivery(s: &[u8], at: usize) -> Option<Restrictions>
    requires { at ≤ 65535 }
    ensures { result ≡ delivery_at s.now at }
{
    let flags = 8 * (at + 5);
    // delivery_not_restricted_flag
    if bits::flag(s, flags + 2) {
        return None;
    }
    Some(Restrictions {
        web_delivery_allowed_flag: bits::flag(s, flags + 3),
        no_regional_blackout_flag: bits::flag(s, flags + 4),
        archive_allowed_flag: bits::flag(s, flags + 5),
        device_restrictions: bits::read(s, flags + 6, 2) as u8,
    })
}

// The two bytes at `at`, where the type may have them and the descriptor does not end before.
fn sub_segments(s: &[u8], segmentation_type_id: u8, at: usize, end: usize) -> Option<SubSegment>
    requires { at ≤ 131072 }
    ensures { result ≡ sub_segments_at s.now segmentation_type_id at end }
{
    if !segmentation::is_sub_segmented(segmentation_type_id) {
        return None;
    }
    if end <= at {
        return None;
    }
    Some(SubSegment {
        sub_segment_num: bits::octet(s, at),
        sub_segments_expected: bits::octet(s, at + 1),
    })
}

// Where the components end.
fn after_components(s: &[u8], at: usize) -> usize
    requires { at ≤ 65535 }
    ensures { result ≡ after_components s.now at }
{
    // program_segmentation_flag
    if bits::flag(s, 8 * (at + 5)) {
        return at + 6;
    }
    let component_count = bits::octet(s, at + 6) as usize;
    at + 7 + 6 * component_count
}
