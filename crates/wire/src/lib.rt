// What crosses to programs in other languages: an answer as one number, and numbers into lent memory.
#![tactic(auto)]

ghost use Rattle.std.specs.Prelude.{◌≡◌};
ghost use Rattle.wire.specs.Wire.{wire, flag_number, mode_numbers};
ghost use Rattle.wire.specs.Given.{these, given, given_into};
ghost use Rattle.wire.specs.Put.{put_place, put_into};

use units::{Mode, Refusal};

// An answer as one number.
pub fn number(answer: Result<usize, Refusal>) -> u64
    ensures { result ≡ wire answer }
{
    match answer {
        Ok(n) => n as u64,
        Err(refusal) => 9223372036854775808 + refusal.number(),
    }
}

// A flag is 0 or 1.
pub fn flag(b: bool) -> u64
    ensures { result ≡ flag_number b }
{
    u64::from(b)
}

// The numbers, written to the front of out, if it has room for them.
pub fn give(numbers: &[u64], out: &mut [u64]) -> Result<usize, Refusal>
    ensures { (result ≡ given (these numbers.now) out.old) × (out.new ≡ given_into (these numbers.now) out.old) }
{
    if out.len() < numbers.len() {
        return Err(Refusal::Room);
    }
    Ok(put(out, 0, numbers))
}

// The numbers of a Mode, put into the list from place at on, as put does it.
pub fn mode(list: &mut [u64], at: usize, x: Mode) -> usize
    ensures { (result ≡ put_place list.old at (mode_numbers x)) × (list.new ≡ put_into list.old at (mode_numbers x)) }
{
    match x {
        Mode::Program => put(list, at, &[0]),
        Mode::Components(n) => put(list, at, &[1, u64::from(n)]),
    }
}

// The numbers, written into the list from place at on, and the place after them. Where they do not fit nothing is written,
// and the answer is at itself.
pub fn put(list: &mut [u64], at: usize, numbers: &[u64]) -> usize
    ensures { (result ≡ put_place list.old at numbers.now) × (list.new ≡ put_into list.old at numbers.now) }
{
    if list.len() < numbers.len() {
        return at;
    }
    if list.len() - numbers.len() < at {
        return at;
    }
    for i in 0..numbers.len() {
        list[at + i] = numbers[i];
    }
    at + numbers.len()
}
