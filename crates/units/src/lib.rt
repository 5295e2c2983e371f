// The kinds of number that must not stand in for one another, the refusals by name, whether a whole program is meant or parts of it,
// and the most that there can be.
#![tactic(auto)]

mod clock;
mod mode;
mod refusals;
mod sizes;

pub use clock::{EventId, Millis, Ticks};
pub use mode::Mode;
pub use refusals::Refusal;
pub use sizes::{MOST_FIELDS, MOST_SECTION, MOST_TEXT, MOST_TEXT_BYTES};
