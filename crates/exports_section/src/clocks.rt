// Ticks of the 90 kHz clock, and the 33-bit clock.
ghost use Rattle.std.specs.Prelude.{◌≡◌};
ghost use Rattle.units.specs.Clock.{ticks, millis_of, clock_sum};

use units::Ticks;

// The whole milliseconds in t ticks of the 90 kHz clock.
#[unsafe(no_mangle)]
pub extern "C" fn timpanimist_ticks_to_millis(t: u64) -> u64
    ensures { result ≡ (millis_of (ticks t)).0 }
{
    Ticks(t).to_millis().0
}

// The sum of two times of the 33-bit clock.
#[unsafe(no_mangle)]
pub extern "C" fn timpanimist_clock_sum(a: u64, b: u64) -> u64
    ensures { result ≡ (clock_sum (ticks a) (ticks b)).0 }
{
    Ticks(a).clock_sum(Ticks(b)).0
}
