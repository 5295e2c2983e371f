// Opens an accepted section for a question on what is inside: rows 1 to 10 of paper 01's table, then SEALED.
#![tactic(auto)]

ghost use Rattle.std.specs.Prelude.{◌≡◌};
ghost use Rattle.opening.specs.First.{first_cursor, open_of};

use descriptors::Cursor;
use units::Refusal;

// Opens the section at its first descriptor, for a question on its command or its descriptors: rows 1 to 10, then SEALED.
#[tactic(auto, using(crate::proofs::Asked::open_by))]
pub fn open(s: &[u8]) -> Result<Cursor, Refusal>
    ensures { result ≡ open_of s.now }
{
    section::judge(s)?.ok_or(Refusal::Sealed)
}

// The cursor of the section's first descriptor. Empty where the bytes are no section, and where the section is sealed.
#[tactic(auto, using(crate::proofs::Asked::first_by))]
pub fn first_cursor(s: &[u8]) -> Cursor
    ensures { result ≡ first_cursor s.now }
{
    open(s).unwrap_or(Cursor { at: 0, end: 0 })
}
