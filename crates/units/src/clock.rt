// Ticks, milliseconds and event ids, each a kind of its own.
ghost use Rattle.std.specs.Prelude.{◌≡◌};
ghost use Rattle.units.specs.Clock.{millis_of, clock_sum};

// Times and durations in ticks of the 90 kHz clock.
#[derive(Clone, Copy, PartialEq, Eq, PartialOrd, Ord)]
pub struct Ticks(pub u64);

// Durations in milliseconds.
#[derive(Clone, Copy, PartialEq, Eq, PartialOrd, Ord)]
pub struct Millis(pub u64);

// A splice_event_id or a segmentation_event_id.
#[derive(Clone, Copy, PartialEq, Eq)]
pub struct EventId(pub u32);

impl Ticks {
    // The whole milliseconds in these ticks: the only crossing between the kinds.
    pub fn to_millis(self) -> Millis
        ensures { result ≡ millis_of self }
    {
        Millis(self.0 / 90)
    }

    // The time that lies `other` after this one on the 33-bit clock, which wraps on purpose.
    pub fn clock_sum(self, other: Ticks) -> Ticks
        ensures { result ≡ clock_sum self other }
    {
        let a = self.0 % 8589934592;
        let b = other.0 % 8589934592;
        Ticks((a + b) % 8589934592)
    }
}
