// The grammar of SCTE 35 sections: definitions and laws, for the crates that read and write by it, and the bytes that a table is read
// from.
#![tactic(auto)]

ghost use Rattle.std.specs.Prelude.{◌≡◌, ◌+◌, ◌≤◌, ◌<◌, length, IfSome, IfNone};

// The bytes of the section from one byte up to another, which are there.
#[derive(Clone, Copy)]
pub struct Part<'a> {
    pub s: &'a [u8],
    pub at: usize,
    pub end: usize,
    ghost in_order: { at ≤ end },
    ghost there: { end ≤ length s.now },
}

impl Part<'_> {
    // The byte after the first n of them, if there are so many.
    pub fn after(self, n: usize) -> Option<usize>
        ensures there { IfSome result (λ place. (place ≡ self.entry.at + n) × (place ≤ self.entry.end)) }
        ensures too_few { IfNone result (self.entry.end < self.entry.at + n) }
    {
        if self.end - self.at < n {
            return None;
        }
        Some(self.at + n)
    }
}
