// Where a splice command ends: a function for each table of the standard, over the bytes from `at` up to `end`.
#![tactic(auto)]

ghost use Rattle.std.specs.Prelude.{◌≡◌, ℕ, ◌*◌, ◌≤◌, cond, Option, Some};
ghost use Rattle.bits.specs.Bits.{bit};
ghost use Rattle.grammar.specs.Meaning.{Env, value_of, run};
ghost use Rattle.grammar.specs.Tables.{bytes, private_command, splice_time, avails, insert_component, insert_times, splice_insert, schedule_times, schedule_event, splice_schedule};
ghost use Rattle.grammar.specs.Syntax.{Prog, stop};
ghost use Rattle.grammar.specs.declared.Part.{Part};
ghost use Rattle.grammar.specs.Ended.{outcome};
ghost use Rattle.grammar.proofs.Ending.{Ends};
ghost use Rattle.grammar.proofs.Run.{times};
ghost use Rattle.commands.specs.Command.{command_end, component_place, event_place, table_of};

use grammar::Part;

// The byte of the section at which its command ends; None where the command breaks its table or its length, or where
// the bytes are too few for a section. A length of 0xFFF leaves the end to the table.
pub fn command_end(s: &[u8]) -> Option<usize>
    ensures { outcome result ≡ command_end s.now }
{
    if s.len() < 20 {
        return None;
    }
    let end = s.len() - 4;
    let splice_command_length = bits::twelve(s, 11);
    if splice_command_length == 0xFFF {
        return command(Part { s, at: 14, end }, s[13], false);
    }
    if ((end - 14) as u64) < splice_command_length {
        return None;
    }
    let part = 14 + (splice_command_length as usize);
    let next = command(
        Part {
            s,
            at: 14,
            end: part,
        },
        s[13],
        true,
    )?;
    if next == part { Some(part) } else { None }
}

// The byte at which component n of an insert starts, whose components stand from `at` up to `end`; None where one before
// it breaks its table, or these bytes are not there.
pub fn insert_component_at(
    s: &[u8],
    at: usize,
    end: usize,
    n: usize,
    splice_immediate_flag: u8,
) -> Option<usize>
    ensures { outcome result ≡ component_place s.now at end n splice_immediate_flag }
{
    if end < at {
        return None;
    }
    if s.len() < end {
        return None;
    }
    insert_components(Part { s, at, end }, n, splice_immediate_flag)
}

// The same for event n of a schedule.
pub fn schedule_event_at(s: &[u8], at: usize, end: usize, n: usize) -> Option<usize>
    ensures { outcome result ≡ event_place s.now at end n }
{
    if end < at {
        return None;
    }
    if s.len() < end {
        return None;
    }
    schedule_events(Part { s, at, end }, n)
}

// The command's own table, by splice_command_type (Table 7). Private and unknown commands take all of a part whose length
// the header gives, and have no end where it gives none.
fn command(part: Part, splice_command_type: u8, sized: bool) -> Option<usize>
    ensures { (env : Env) → Ends (table_of splice_command_type (cond sized private_command stop) (cond sized (bytes "command_byte") stop)) env part.entry result }
{
    match splice_command_type {
        0x00 | 0x07 => Some(part.at),
        0x04 => splice_schedule(part),
        0x05 => splice_insert(part),
        0x06 => splice_time(part),
        0xFF => { if sized { private_command(part) } else { None } }
        _ => { if sized { Some(part.end) } else { None } }
    }
}

// Table 13.
fn private_command(part: Part) -> Option<usize>
    ensures { (env : Env) → Ends private_command env part.entry result }
{
    part.after(4)?;
    Some(part.end)
}

// Table 14.
fn splice_time(part: Part) -> Option<usize>
    ensures { (env : Env) → Ends splice_time env part.entry result }
{
    let next = part.after(1)?;
    if part.s[part.at] < 128 {
        return Some(next);
    }
    part.after(5)
}

// Tables 9 and 10, the end of an event.
fn avails(part: Part, duration_flag: u8) -> Option<usize>
    ensures { (env : Env) → value_of env "duration_flag" ≡ duration_flag → Ends avails env part.entry result }
{
    let Part { s, end, .. } = part;
    if duration_flag == 1 {
        let at = part.after(5)?;
        return Part { s, at, end }.after(4);
    }
    part.after(4)
}

// Table 10, a component.
fn insert_component(part: Part, splice_immediate_flag: u8) -> Option<usize>
    ensures { (env : Env) → value_of env "splice_immediate_flag" ≡ splice_immediate_flag → Ends insert_component env part.entry result }
{
    let Part { s, end, .. } = part;
    let next = part.after(1)?;
    if splice_immediate_flag == 0 {
        return splice_time(Part { s, at: next, end });
    }
    Some(next)
}

// Table 10, the components.
fn insert_components(part: Part, component_count: usize, splice_immediate_flag: u8) -> Option<usize>
    ensures { (env : Env) → value_of env "splice_immediate_flag" ≡ splice_immediate_flag → times component_count (run insert_component env (bit part.entry.s.now) (8 * part.entry.end)) (8 * part.entry.at) ≡ outcome result }
{
    parts(part, component_count, |one| {
        insert_component(one, splice_immediate_flag)
    })
}

// Table 10, when the splice takes place.
fn insert_times(part: Part, program_splice_flag: u8, splice_immediate_flag: u8) -> Option<usize>
    ensures { (env : Env) → value_of env "program_splice_flag" ≡ program_splice_flag → value_of env "splice_immediate_flag" ≡ splice_immediate_flag → Ends insert_times env part.entry result }
{
    if program_splice_flag == 1 {
        if splice_immediate_flag == 0 {
            return splice_time(part);
        }
        return Some(part.at);
    }
    let Part { s, at, end } = part;
    let next = part.after(1)?;
    insert_components(
        Part { s, at: next, end },
        s[at] as usize,
        splice_immediate_flag,
    )
}

// Table 10.
fn splice_insert(part: Part) -> Option<usize>
    ensures { (env : Env) → Ends splice_insert env part.entry result }
{
    let Part { s, at, end } = part;
    let id = part.after(5)?;
    // splice_event_cancel_indicator
    if 128 <= s[at + 4] {
        return Some(id);
    }
    let times = part.after(6)?;
    let flags = s[at + 5];
    let next = insert_times(Part { s, at: times, end }, flags / 64 % 2, flags / 16 % 2)?;
    avails(Part { s, at: next, end }, flags / 32 % 2)
}

// Table 9, when an event takes place.
fn schedule_times(part: Part, program_splice_flag: u8) -> Option<usize>
    ensures { (env : Env) → value_of env "program_splice_flag" ≡ program_splice_flag → Ends schedule_times env part.entry result }
{
    if program_splice_flag == 1 {
        return part.after(4);
    }
    part.after(1)?;
    let components = 5 * (part.s[part.at] as usize);
    part.after(1 + components)
}

// Table 9, an event.
fn schedule_event(part: Part) -> Option<usize>
    ensures { (env : Env) → Ends schedule_event env part.entry result }
{
    let Part { s, at, end } = part;
    let id = part.after(5)?;
    // splice_event_cancel_indicator
    if 128 <= s[at + 4] {
        return Some(id);
    }
    let times = part.after(6)?;
    let flags = s[at + 5];
    let next = schedule_times(Part { s, at: times, end }, flags / 64 % 2)?;
    avails(Part { s, at: next, end }, flags / 32 % 2)
}

// Table 9.
fn splice_schedule(part: Part) -> Option<usize>
    ensures { (env : Env) → Ends splice_schedule env part.entry result }
{
    let Part { s, at, end } = part;
    let next = part.after(1)?;
    schedule_events(Part { s, at: next, end }, s[at] as usize)
}

// Table 9, the events.
fn schedule_events(part: Part, count: usize) -> Option<usize>
    ensures { (env : Env) → times count (run schedule_event env (bit part.entry.s.now) (8 * part.entry.end)) (8 * part.entry.at) ≡ outcome result }
{
    parts(part, count, schedule_event)
}

// Where `count` parts end that stand one behind another, each by the same table.
fn parts<'a, F: Fn(Part<'a>) -> Option<usize>>(
    part: Part<'a>,
    count: usize,
    table: F,
) -> Option<usize>
    requires callable { F.IsAlwaysCallable table }
    requires within { (one : Part) (next : ℕ) → F.post table one (Some next) → next ≤ one.end }
    ensures { (p : Prog) (env : Env) → ((one : Part) (o : Option ℕ) → F.post table one o → Ends p env one o) → times count (run p env (bit part.entry.s.now) (8 * part.entry.end)) (8 * part.entry.at) ≡ outcome result }
{
    let Part { s, at, end } = part;
    let mut next = at;
    for _ in 0..count {
        next = table(Part { s, at: next, end })?;
    }
    Some(next)
}
