// The bill label of a section: the first UPID that has bytes, or the house's name.
#![tactic(auto)]

ghost use Rattle.std.specs.Prelude.{◌≡◌};
ghost use Rattle.known_walk.specs.Known.{known_cursors};
ghost use Rattle.labels.specs.Labels.{label_at, bill_label, label_bytes};

pub use descriptor_reading::Part;
use descriptors::Cursor;
use units::MOST_SECTION;

// Which part of the section the break is billed under; `None` is the house's own name.
#[tactic(auto, unfolding(crate::specs::Labels::bill_label, opening::specs::First::asked))]
pub fn label(section: &[u8]) -> Option<Part>
    ensures { result ≡ bill_label section.now }
{
    let cursor = opening::open(section).ok()?;
    first_label(section, cursor)
}

// These bytes: a part of the section, or the house's name as it was lent.
pub fn bill_label<'a>(section: &'a [u8], house: &'a [u8]) -> &'a [u8]
    ensures { result.now ≡ label_bytes section.now house.now }
{
    let Some(Part { at, length }) = label(section) else {
        return house;
    };
    let end = at + length;
    &section[at..end]
}

// The first known descriptor that has UPID bytes.
fn first_label(s: &[u8], cursor: Cursor) -> Option<Part>
    ensures { result ≡ label_at s.now (known_cursors s.now cursor) }
{
    if MOST_SECTION < s.len() {
        return None;
    }
    let mut place = cursor;
    while let Ok(Some((kind, next))) = place.step(s) {
        if known_walk::is_known(kind) {
            if let Ok(part) = descriptor_reading::upid_at(s, place) {
                if 0 < part.length {
                    return Some(part);
                }
            }
        }
        place = next;
    }
    None
}
