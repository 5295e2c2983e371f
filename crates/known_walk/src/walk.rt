// The known descriptors that the walk from a cursor finds.
ghost use Rattle.std.specs.Prelude.{◌≡◌, length};
ghost use Rattle.known_walk.specs.Known.{known_cursors, standing_trace};
ghost use Rattle.known_walk.specs.Places.{Placed, PlacedAt};

use crate::is_known;
use descriptors::Cursor;
use units::MOST_SECTION;

// Where known descriptor n stands.
pub fn known(s: &[u8], cursor: Cursor, n: usize) -> Option<usize>
    ensures { Placed s.now cursor n result }
{
    if MOST_SECTION < s.len() {
        return None;
    }
    let mut place = cursor;
    let mut left = n;
    while let Ok(Some((kind, next))) = place.step(s) {
        if is_known(kind) {
            if left == 0 {
                return Some(place.at);
            }
            left -= 1;
        }
        place = next;
    }
    None
}

// How many there are.
pub fn count(s: &[u8], cursor: Cursor) -> usize
    ensures { result ≡ length (known_cursors s.now cursor) }
{
    if MOST_SECTION < s.len() {
        return 0;
    }
    let mut rest = cursor;
    let mut found = 0;
    while let Ok(Some((kind, next))) = rest.step(s) {
        if is_known(kind) {
            found += 1;
        }
        rest = next;
    }
    found
}

// Where a known descriptor stands, if one does at the cursor.
pub fn standing(s: &[u8], cursor: Cursor) -> Option<usize>
    ensures { PlacedAt s.now cursor.at (standing_trace s.now cursor) result }
{
    if MOST_SECTION < s.len() {
        return None;
    }
    let Ok(Some((kind, _))) = cursor.step(s) else {
        return None;
    };
    is_known(kind).then_some(cursor.at)
}
