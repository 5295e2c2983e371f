// The walk over the descriptor loop of a section: a cursor by value, and a function for each table of the standard but the
// segmentation descriptor's, over the part of the section that the descriptor has.
#![tactic(auto)]

ghost use Rattle.std.specs.Prelude.{◌≡◌, ◌+◌, ◌*◌, ◌≤◌, length};
ghost use Rattle.bits.specs.Bits.{bit, num};
ghost use Rattle.grammar.specs.Meaning.{Env};
ghost use Rattle.grammar.specs.Tables.{dtmf_descriptor, audio_descriptor};
ghost use Rattle.grammar.proofs.Ending.{Ends};
ghost use Rattle.descriptors.specs.Walk.{kind_of, table_of, step_of};

use grammar::Part;
pub use segmentation::is_sub_segmented;
use units::Refusal;

// "CUEI", the identifier of the standard's own descriptors.
const CUEI: u64 = 0x43554549;

// The bytes of the loop that are still to be walked over: from `at` up to `end`.
#[derive(Clone, Copy)]
pub struct Cursor {
    pub at: usize,
    pub end: usize,
}

// Which table a descriptor follows.
#[derive(Clone, Copy, PartialEq, Eq)]
pub enum Kind {
    Avail,
    Dtmf,
    Segmentation,
    Time,
    Audio,
    Unknown,
}

impl Cursor {
    // The descriptor that stands here, and the cursor after it; `None` where nothing is left. Refused where the loop reaches past the
    // bytes, or the descriptor breaks its table.
    pub fn step(self, s: &[u8]) -> Result<Option<(Kind, Cursor)>, Refusal>
        ensures { result ≡ step_of s.now self }
    {
        let Cursor { at, end } = self;
        if end <= at {
            return Ok(None);
        }
        if s.len() < end {
            return Err(Refusal::Descriptor);
        }
        if end - at < 2 {
            return Err(Refusal::Descriptor);
        }
        let descriptor_length = s[at + 1] as usize;
        if end - at - 2 < descriptor_length {
            return Err(Refusal::Descriptor);
        }
        if descriptor_length < 4 {
            return Err(Refusal::Descriptor);
        }
        let next = at + 2 + descriptor_length;
        let kind = kind_at(s, at);
        let n = descriptor(
            Part {
                s,
                at: at + 6,
                end: next,
            },
            kind,
        )
        .ok_or(Refusal::Descriptor)?;
        if n != next {
            return Err(Refusal::Descriptor);
        }
        Ok(Some((kind, Cursor { at: next, end })))
    }
}

// The kind of the descriptor that stands from byte `at` on; unknown where these bytes are too few for an identifier.
pub fn kind_of(s: &[u8], at: usize) -> Kind
    ensures { result ≡ kind_of s.now at }
{
    if s.len() < 6 {
        return Kind::Unknown;
    }
    if s.len() - 6 < at {
        return Kind::Unknown;
    }
    kind_at(s, at)
}

// The same where its identifier is there.
fn kind_at(s: &[u8], at: usize) -> Kind
    requires { at + 6 ≤ length s.now }
    ensures { result ≡ kind_of s.now at }
{
    if identifier(s, at + 2) != CUEI {
        return Kind::Unknown;
    }
    match s[at] {
        0 => Kind::Avail,
        1 => Kind::Dtmf,
        2 => Kind::Segmentation,
        3 => Kind::Time,
        4 => Kind::Audio,
        _ => Kind::Unknown,
    }
}

fn identifier(s: &[u8], at: usize) -> u64
    requires { at + 4 ≤ length s.now }
    ensures { result ≡ num (bit s.now) (8 * at) 32 }
{
    bits::quad(s, at)
}

// A descriptor of that kind, after the identifier.
fn descriptor(part: Part, kind: Kind) -> Option<usize>
    ensures { (env : Env) → Ends (table_of kind) env part.entry result }
{
    match kind {
        // Table 18: provider_avail_id
        Kind::Avail => part.after(4),
        Kind::Dtmf => dtmf_descriptor(part),
        Kind::Segmentation => segmentation::segmentation_descriptor(part.s, part.at, part.end),
        // Table 27: TAI_seconds, TAI_ns and UTC_offset
        Kind::Time => part.after(12),
        Kind::Audio => audio_descriptor(part),
        Kind::Unknown => Some(part.end),
    }
}

// Table 19, after the identifier.
fn dtmf_descriptor(part: Part) -> Option<usize>
    ensures { (env : Env) → Ends dtmf_descriptor env part.entry result }
{
    part.after(2)?;
    let dtmf_count = (part.s[part.at + 1] / 32) as usize;
    part.after(2 + dtmf_count)
}

// Table 28, after the identifier.
fn audio_descriptor(part: Part) -> Option<usize>
    ensures { (env : Env) → Ends audio_descriptor env part.entry result }
{
    part.after(1)?;
    let audio_count = (part.s[part.at] / 16) as usize;
    part.after(1 + 5 * audio_count)
}
