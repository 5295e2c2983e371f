// The known descriptors of a loop, which the walk from a cursor finds: how many there are and where they stand. They are
// numbered from 0, and unknown ones are not counted.
#![tactic(auto)]

mod walk;

ghost use Rattle.std.specs.Prelude.{◌≡◌};
ghost use Rattle.known_walk.specs.Known.{is_known};

use descriptors::Kind;
pub use walk::{count, known, standing};

// Whether a kind is known.
pub fn is_known(kind: Kind) -> bool
    ensures { result ≡ is_known kind }
{
    kind != Kind::Unknown
}
