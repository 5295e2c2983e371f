// When a splice takes place, and the two DVB-DASH answers: the first check, and how long the event lasts.
#![tactic(auto, using(wire::proofs::Given::refusals))]

ghost use Rattle.std.specs.Prelude.{◌≡◌};
ghost use Rattle.breaks.specs.Dash.{dash_duration};
ghost use Rattle.times.specs.Times.{effective_time, dvb};
ghost use Rattle.wire.specs.Wire.{wire};
ghost use Rattle.wire.specs.Given.{given, given_into};
ghost use Rattle.exports_house.specs.Timing.{effective_time_numbers, dvb_numbers, dash_duration_numbers};

use units::{Refusal, Ticks};

// When the splice takes place on the stream's own clock.
#[unsafe(no_mangle)]
pub extern "C" fn timpanimist_effective_time(section: &[u8], out: &mut [u64]) -> u64
    ensures { (result ≡ wire (given (effective_time_numbers (effective_time section.now)) out.old)) × (out.new ≡ given_into (effective_time_numbers (effective_time section.now)) out.old) }
{
    let answer = times::effective_time(section);
    wire::number(effective_time(answer, out))
}

// Whether the section passes the first DVB-DASH check.
#[unsafe(no_mangle)]
pub extern "C" fn timpanimist_dvb(section: &[u8], out: &mut [u64]) -> u64
    ensures { (result ≡ wire (given (dvb_numbers (dvb section.now)) out.old)) × (out.new ≡ given_into (dvb_numbers (dvb section.now)) out.old) }
{
    let answer = times::dvb(section);
    wire::number(dvb(answer, out))
}

// How long the DASH event of a time signal lasts.
#[unsafe(no_mangle)]
pub extern "C" fn timpanimist_dash_duration(section: &[u8], out: &mut [u64]) -> u64
    ensures { (result ≡ wire (given (dash_duration_numbers (dash_duration section.now)) out.old)) × (out.new ≡ given_into (dash_duration_numbers (dash_duration section.now)) out.old) }
{
    let answer = breaks::dash_duration(section);
    wire::number(dash_duration(answer, out))
}

// An effective time as numbers, written to the front of out.
fn effective_time(answer: Result<Option<Ticks>, Refusal>, out: &mut [u64]) -> Result<usize, Refusal>
    ensures { (result ≡ given (effective_time_numbers answer) out.old) × (out.new ≡ given_into (effective_time_numbers answer) out.old) }
{
    let time = answer?;
    match time {
        None => wire::give(&[0], out),
        Some(time) => wire::give(&[1, time.0], out),
    }
}

// The first DVB-DASH check, in the same way.
fn dvb(answer: Result<bool, Refusal>, out: &mut [u64]) -> Result<usize, Refusal>
    ensures { (result ≡ given (dvb_numbers answer) out.old) × (out.new ≡ given_into (dvb_numbers answer) out.old) }
{
    let passes = answer?;
    wire::give(&[wire::flag(passes)], out)
}

// How long the DASH event lasts, in the same way.
fn dash_duration(answer: Result<Option<Ticks>, Refusal>, out: &mut [u64]) -> Result<usize, Refusal>
    ensures { (result ≡ given (dash_duration_numbers answer) out.old) × (out.new ≡ given_into (dash_duration_numbers answer) out.old) }
{
    let duration = answer?;
    match duration {
        None => wire::give(&[0], out),
        Some(duration) => wire::give(&[1, duration.0], out),
    }
}
