// What a time signal says by its descriptors, in one walk over those of an open section. Acceptance has read each of them, so
// the walk goes on by their lengths, tests nothing a second time and reads only what is asked.
ghost use Rattle.std.specs.Prelude.{◌≡◌, ◌*◌, ◌≤◌, length};
ghost use Rattle.bits.specs.Bits.{field_of};
ghost use Rattle.grammar.specs.Meaning.{is_among};
ghost use Rattle.units.specs.Clock.{event_id};
ghost use Rattle.segmentation_reading.specs.Places.{duration_at};
ghost use Rattle.descriptors.proofs.Filled.{Filled};
ghost use Rattle.breaks.specs.Signals.{break_types, uncancelled, opens_at, measure_of, longer, signal_of, break_of, known_readings};

use crate::Break;
use descriptors::{Cursor, Kind};
use units::{EventId, Ticks};

// A duration, and the event whose descriptor carries it.
#[derive(Clone, Copy)]
pub struct Measure {
    pub event: EventId,
    pub ticks: Ticks,
}

// What a time signal says by its descriptors.
#[derive(Clone, Copy)]
pub struct Signal {
    pub opened: bool,
    // The longest of those that open a break; of two as long the first.
    pub billed: Option<Measure>,
    // The longest of all.
    pub longest: Option<Measure>,
}

// What the known descriptors from a cursor on say, where descriptors fill the loop.
pub(crate) fn walk(s: &[u8], cursor: Cursor) -> Signal
    requires { (length s.now ≤ 4096) × Filled s.now cursor }
    ensures { result ≡ signal_of (known_readings s.now cursor) }
{
    let mut opened = false;
    let mut billed = None;
    let mut longest = None;
    let mut at = cursor.at;
    while at < cursor.end {
        if is_uncancelled(s, at) {
            let here = (at + 6) as u16;
            let measure = carried(s, here);
            longest = longer(longest, measure);
            if opens(s, here) {
                opened = true;
                billed = longer(billed, measure);
            }
        }
        at = at + 2 + (s[at + 1] as usize);
    }
    Signal {
        opened,
        billed,
        longest,
    }
}

impl Signal {
    // The break that it opens, if it does.
    pub(crate) fn opening(self) -> Break
        ensures { result ≡ break_of self }
    {
        if !self.opened {
            return Break::None;
        }
        match self.billed {
            None => Break::Unmeasured,
            Some(measure) => Break::Measured(measure.ticks),
        }
    }
}

// Whether a segmentation descriptor that is not cancelled stands from byte `at` on.
fn is_uncancelled(s: &[u8], at: usize) -> bool
    requires { at ≤ 4096 }
    ensures { result ≡ uncancelled s.now at }
{
    // segmentation_event_cancel_indicator
    descriptors::kind_of(s, at) == Kind::Segmentation && !bits::flag(s, 8 * (at + 10))
}

// Whether it opens a break, by the byte after its identifier.
fn opens(s: &[u8], at: u16) -> bool
    ensures { result ≡ opens_at s.now at }
{
    opens_break(bits::octet(s, segmentation_reading::type_place(s, at)))
}

// Whether a segmentation type does.
fn opens_break(segmentation_type_id: u8) -> bool
    ensures { result ≡ is_among segmentation_type_id break_types }
{
    matches!(segmentation_type_id, 0x22 | 0x30 | 0x32 | 0x34 | 0x36)
}

// The duration that it carries.
fn carried(s: &[u8], at: u16) -> Option<Measure>
    ensures { result ≡ measure_of (event_id (field_of s.now (8 * at) 32)) (duration_at s.now at) }
{
    let ticks = segmentation_reading::duration(s, at)?;
    let event = EventId(bits::quad(s, at as usize) as u32);
    Some(Measure { event, ticks })
}

// The longer of two, and of two as long the first.
fn longer(a: Option<Measure>, b: Option<Measure>) -> Option<Measure>
    ensures { result ≡ longer a b }
{
    let Some(x) = a else {
        return b;
    };
    let Some(y) = b else {
        return a;
    };
    if y.ticks <= x.ticks { a } else { b }
}
