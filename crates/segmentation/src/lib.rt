// The segmentation descriptor (Table 20): where it ends, and which types may carry sub-segments.
#![tactic(auto)]

ghost use Rattle.std.specs.Prelude.{◌≡◌};
ghost use Rattle.grammar.specs.Meaning.{Env, value_of, is_among};
ghost use Rattle.grammar.specs.Tables.{segmentation_components, sub_segmented, segmentation_end, segmentation_descriptor};
ghost use Rattle.grammar.specs.Ended.{outcome};
ghost use Rattle.grammar.proofs.Ending.{Ends};
ghost use Rattle.segmentation.specs.Segmentation.{segmentation_end_at};

use grammar::Part;

// After the identifier: where the descriptor ends whose part stands from `at` up to `end`.
pub fn segmentation_descriptor(s: &[u8], at: usize, end: usize) -> Option<usize>
    ensures { outcome result ≡ segmentation_end_at s.now at end }
{
    if end < at {
        return None;
    }
    if s.len() < end {
        return None;
    }
    descriptor(Part { s, at, end })
}

// The same where the part lies within the bytes.
fn descriptor(part: Part) -> Option<usize>
    ensures { (env : Env) → Ends segmentation_descriptor env part.entry result }
{
    let Part { s, at, end } = part;
    if end - at < 5 {
        return None;
    }
    // segmentation_event_cancel_indicator
    if 128 <= s[at + 4] {
        return Some(at + 5);
    }
    if end - at < 6 {
        return None;
    }
    let flags = s[at + 5];
    let program_segmentation_flag = flags / 128;
    let segmentation_duration_flag = flags / 64 % 2;
    let n = segmentation_components(Part { s, at: at + 6, end }, program_segmentation_flag)?;
    if segmentation_duration_flag == 0 {
        return segmentation_end(Part { s, at: n, end });
    }
    if end - n < 5 {
        return None;
    }
    segmentation_end(Part { s, at: n + 5, end })
}

// Table 20, the components.
fn segmentation_components(part: Part, program_segmentation_flag: u8) -> Option<usize>
    ensures { (env : Env) → value_of env "program_segmentation_flag" ≡ program_segmentation_flag → Ends segmentation_components env part.entry result }
{
    let Part { s, at, end } = part;
    if program_segmentation_flag != 0 {
        return Some(at);
    }
    if end - at < 1 {
        return None;
    }
    let component_count = s[at] as usize;
    if end - at - 1 < 6 * component_count {
        return None;
    }
    Some(at + 1 + 6 * component_count)
}

// Table 20, from the UPID on.
fn segmentation_end(part: Part) -> Option<usize>
    ensures { (env : Env) → Ends segmentation_end env part.entry result }
{
    let Part { s, at, end } = part;
    if end - at < 2 {
        return None;
    }
    let segmentation_upid_length = s[at + 1] as usize;
    if end - at - 2 < segmentation_upid_length {
        return None;
    }
    let n = at + 2 + segmentation_upid_length;
    if end - n < 3 {
        return None;
    }
    if !is_sub_segmented(s[n]) {
        return Some(n + 3);
    }
    // the two bytes may be left out
    if end - n == 3 {
        return Some(n + 3);
    }
    if end - n < 5 {
        return None;
    }
    Some(n + 5)
}

// Whether a segmentation type may carry sub-segments (Table 20).
pub fn is_sub_segmented(segmentation_type_id: u8) -> bool
    ensures { result ≡ is_among segmentation_type_id sub_segmented }
{
    match segmentation_type_id {
        0x34 | 0x30 | 0x32 | 0x36 | 0x38 | 0x3A | 0x44 | 0x46 => true,
        _ => false,
    }
}
