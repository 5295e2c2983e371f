// The tally: one text per line from standard input, one answer line each to standard output. Everything that matters is in
// `lines`; this is the loop that reads and writes.
#![tactic(auto)]

ghost use Rattle.std.specs.Prelude.{◌≤◌, ◌≡◌, length};
ghost use Rattle.lines.specs.Turns.{turn_answer, turn_carry, last_out};
ghost use Rattle.tally.specs.Loop.{Answers, Wrote, Stepped, Took, Ended, Came};

use lines::{Held, Turn};
use std::env::{Env, FillError};
use std::io;
use std::io::Read;
use units::MOST_TEXT;

// Reading or writing failed, and that was said.
#[derive(Clone, Copy)]
struct Failed;

// How it goes on: with what is held of a line that was cut. Or not at all: the input is at its end, and so many bytes were
// written of its last line.
#[derive(Clone, Copy)]
enum Next {
    Holding(Held),
    Ended(usize),
}

fn main(rt: HostRuntime) {
    if !matches!(rt.arg(1, &mut [0u8; 1]), Err(FillError::NotPresent)) {
        usage(&rt);
        return;
    }
    let mut input = [0u8; 65536];
    let mut out = [0u8; 65536];
    // the longest text
    let mut carry = [0u8; MOST_TEXT];
    let mut held = Held::Characters(0);
    // A proved loop has to end, and nothing says that the input does: no run uses these turns up.
    for _ in 0..u64::MAX {
        let got = rt.stdin().read(&mut input);
        let Ok(Next::Holding(next)) = came(&rt, got, held, &input, &mut carry, &mut out) else {
            return;
        };
        held = next;
    }
}

// It takes no arguments. One that is given may name a file, whose lines would otherwise be waited for in vain.
fn usage(rt: &impl Eprint) {
    let _ = eprintln!(rt; "usage: tally <TEXTS >ANSWERS");
}

// Goes on by what the read answered: it failed; or the input is at its end, which ends the line that is held; or so many bytes
// came, and the lines that end in them are answered.
fn came(
    rt: &(impl Print + Eprint),
    got: io::Result<usize>,
    held: Held,
    input: &[u8],
    carry: &mut [u8],
    out: &mut [u8],
) -> Result<Next, Failed>
    requires { (5464 ≤ length carry.old) × (23 ≤ length out.old) }
    ensures { Came got held input.now carry.old carry.new out.old out.new result }
{
    let n = match got {
        Ok(n) => n,
        Err(e) => {
            let _ = eprintln!(rt; "tally: standard input: {e}");
            return Err(Failed);
        }
    };
    if n == 0 {
        return Ok(Next::Ended(last(rt, held, carry, out)?));
    }
    let n = n.min(input.len());
    Ok(Next::Holding(all(rt, held, &input[..n], carry, out)?))
}

// Turn after turn, until the whole input is taken. Each turn's answers are written before the next.
fn all(
    rt: &(impl Print + Eprint),
    held: Held,
    input: &[u8],
    carry: &mut [u8],
    out: &mut [u8],
) -> Result<Held, Failed>
    requires { (5464 ≤ length carry.old) × (23 ≤ length out.old) }
    ensures { Took held input.now carry.old carry.new result }
{
    let mut held = held;
    let mut at = 0;
    while at < input.len() {
        let turn = one(rt, held, &input[at..], carry, out)?;
        held = turn.held;
        at += turn.taken;
    }
    Ok(held)
}

// One turn, and its answers written.
fn one(
    rt: &(impl Print + Eprint),
    held: Held,
    input: &[u8],
    carry: &mut [u8],
    out: &mut [u8],
) -> Result<Turn, Failed>
    ensures { Stepped (turn_answer held input.now carry.old out.old) result × (carry.new ≡ turn_carry held input.now carry.old out.old) }
{
    let turn = lines::turn(held, input, carry, out).map_err(|_| Failed)?;
    let written = say(rt, &out[..turn.written])?;
    Ok(Turn { written, ..turn })
}

// The line that the end of the input ends.
fn last(
    rt: &(impl Print + Eprint),
    held: Held,
    carry: &[u8],
    out: &mut [u8],
) -> Result<usize, Failed>
    ensures { Ended held carry.now result × (out.new ≡ last_out held carry.now out.old) }
{
    let n = lines::last_line(held, carry, out).map_err(|_| Failed)?;
    say(rt, &out[..n])
}

// Writes answer lines, whole ones and nothing else, or says why it cannot.
fn say(rt: &(impl Print + Eprint), answers: &[u8]) -> Result<usize, Failed>
    requires { Answers answers.now }
    ensures { Wrote (length answers.now) result }
{
    if let Err(e) = rt.write_all(answers) {
        let _ = eprintln!(rt; "tally: standard output: {e}");
        return Err(Failed);
    }
    Ok(answers.len())
}
