// The fields of the command of a section: a function for each table of the standard, which lays the table's fields out. One walk
// serves both directions: what a field holds comes from the section's bits or from a sheet's numbers.
#![tactic(auto)]

ghost use Rattle.std.specs.Prelude.{◌≡◌, ℕ, true, cond};
ghost use Rattle.grammar.specs.Syntax.{stop};
ghost use Rattle.grammar.specs.Meaning.{Env, value_of};
ghost use Rattle.grammar.specs.Tables.{bytes, splice_time, avails, insert_component, insert_times, splice_insert, schedule_times, schedule_event, splice_schedule, private_command, sized_command};
ghost use Rattle.commands.specs.Command.{table_of};
ghost use Rattle.fields.specs.Fields.{Source, plan, times_on, walk, kept, Lays};
ghost use Rattle.fields.specs.SoFar.{given, so_far, SameMemory};

use fields::{Fields, Numbers, Place};

// Table 14.
fn splice_time(numbers: Numbers, fields: &mut Fields)
    ensures lays { (env : Env) (end : ℕ) → Lays splice_time env (given numbers.entry) end (so_far fields.old) (so_far fields.new) }
    ensures memory { SameMemory fields.old fields.new }
{
    let time_specified_flag = numbers.value(fields.at, fields.number, 1);
    fields.lay(&[1]);
    if time_specified_flag == 1 {
        fields.lay(&[6, 33]);
    } else {
        fields.lay(&[7]);
    }
}

// Tables 9 and 10, the end of an event.
fn avails(fields: &mut Fields, duration_flag: u64)
    ensures lays { (env : Env) (v : Source) (end : ℕ) → value_of env "duration_flag" ≡ duration_flag → Lays avails env v end (so_far fields.old) (so_far fields.new) }
    ensures memory { SameMemory fields.old fields.new }
{
    if duration_flag == 1 {
        fields.lay(&[1, 6, 33]);
    }
    fields.lay(&[16, 8, 8]);
}

// Table 10, a component.
fn insert_component(numbers: Numbers, fields: &mut Fields, splice_immediate_flag: u64)
    ensures lays { (env : Env) (end : ℕ) → value_of env "splice_immediate_flag" ≡ splice_immediate_flag → Lays insert_component env (given numbers.entry) end (so_far fields.old) (so_far fields.new) }
    ensures memory { SameMemory fields.old fields.new }
{
    fields.lay(&[8]);
    if splice_immediate_flag == 0 {
        splice_time(numbers, fields);
    }
}

// Table 10, the components.
fn insert_components(
    numbers: Numbers,
    fields: &mut Fields,
    component_count: u64,
    splice_immediate_flag: u64,
)
    ensures lays { (env : Env) (end : ℕ) → value_of env "splice_immediate_flag" ≡ splice_immediate_flag → times_on component_count (walk insert_component env (given numbers.entry) end) (so_far fields.old) ≡ so_far fields.new }
    ensures memory { SameMemory fields.old fields.new }
{
    for _ in 0..component_count {
        insert_component(numbers, fields, splice_immediate_flag);
    }
}

// Table 10, when the splice takes place.
fn insert_times(
    numbers: Numbers,
    fields: &mut Fields,
    program_splice_flag: u64,
    splice_immediate_flag: u64,
)
    ensures lays { (env : Env) (end : ℕ) → value_of env "program_splice_flag" ≡ program_splice_flag → value_of env "splice_immediate_flag" ≡ splice_immediate_flag → Lays insert_times env (given numbers.entry) end (so_far fields.old) (so_far fields.new) }
    ensures memory { SameMemory fields.old fields.new }
{
    if program_splice_flag == 1 {
        if splice_immediate_flag == 0 {
            splice_time(numbers, fields);
        }
        return;
    }
    let component_count = numbers.value(fields.at, fields.number, 8);
    fields.lay(&[8]);
    insert_components(numbers, fields, component_count, splice_immediate_flag);
}

// Table 10.
fn splice_insert(numbers: Numbers, fields: &mut Fields)
    ensures lays { (env : Env) (end : ℕ) → Lays splice_insert env (given numbers.entry) end (so_far fields.old) (so_far fields.new) }
    ensures memory { SameMemory fields.old fields.new }
{
    let cancelled = numbers.value(fields.at + 32, fields.number + 1, 1);
    fields.lay(&[32, 1, 7]);
    if cancelled != 0 {
        return;
    }
    let program_splice_flag = numbers.value(fields.at + 1, fields.number + 1, 1);
    let duration_flag = numbers.value(fields.at + 2, fields.number + 2, 1);
    let splice_immediate_flag = numbers.value(fields.at + 3, fields.number + 3, 1);
    fields.lay(&[1, 1, 1, 1, 4]);
    insert_times(numbers, fields, program_splice_flag, splice_immediate_flag);
    avails(fields, duration_flag);
}

// Table 9, when an event takes place.
fn schedule_times(numbers: Numbers, fields: &mut Fields, program_splice_flag: u64)
    ensures lays { (env : Env) (end : ℕ) → value_of env "program_splice_flag" ≡ program_splice_flag → Lays schedule_times env (given numbers.entry) end (so_far fields.old) (so_far fields.new) }
    ensures memory { SameMemory fields.old fields.new }
{
    if program_splice_flag == 1 {
        fields.lay(&[32]);
        return;
    }
    let component_count = numbers.value(fields.at, fields.number, 8);
    fields.lay(&[8]);
    fields.groups(component_count, &[8, 32]);
}

// Table 9, an event.
fn schedule_event(numbers: Numbers, fields: &mut Fields)
    ensures lays { (env : Env) (end : ℕ) → Lays schedule_event env (given numbers.entry) end (so_far fields.old) (so_far fields.new) }
    ensures memory { SameMemory fields.old fields.new }
{
    let cancelled = numbers.value(fields.at + 32, fields.number + 1, 1);
    fields.lay(&[32, 1, 7]);
    if cancelled != 0 {
        return;
    }
    let program_splice_flag = numbers.value(fields.at + 1, fields.number + 1, 1);
    let duration_flag = numbers.value(fields.at + 2, fields.number + 2, 1);
    fields.lay(&[1, 1, 1, 5]);
    schedule_times(numbers, fields, program_splice_flag);
    avails(fields, duration_flag);
}

// Table 9.
fn splice_schedule(numbers: Numbers, fields: &mut Fields)
    ensures lays { (env : Env) (end : ℕ) → Lays splice_schedule env (given numbers.entry) end (so_far fields.old) (so_far fields.new) }
    ensures memory { SameMemory fields.old fields.new }
{
    let splice_count = numbers.value(fields.at, fields.number, 8);
    fields.lay(&[8]);
    for _ in 0..splice_count {
        schedule_event(numbers, fields);
    }
}

// Table 13.
fn private_command(fields: &mut Fields, end: usize)
    ensures lays { (env : Env) (v : Source) → Lays private_command env v end (so_far fields.old) (so_far fields.new) }
    ensures memory { SameMemory fields.old fields.new }
{
    fields.lay(&[32]);
    fields.bytes(end);
}

// The command's own table, by splice_command_type (Table 7). Private and unknown commands have fields only in a part whose
// length the header gives.
fn command(numbers: Numbers, fields: &mut Fields, end: usize, splice_command_type: u64, sized: bool)
    ensures lays { (env : Env) (e : ℕ) → (sized ≡ true → e ≡ end) → Lays (table_of splice_command_type (cond sized private_command stop) (cond sized (bytes "command_byte") stop)) env (given numbers.entry) e (so_far fields.old) (so_far fields.new) }
    ensures memory { SameMemory fields.old fields.new }
{
    match splice_command_type {
        0x00 | 0x07 => {}
        0x04 => splice_schedule(numbers, fields),
        0x05 => splice_insert(numbers, fields),
        0x06 => splice_time(numbers, fields),
        0xFF => {
            if sized {
                private_command(fields, end);
            }
        }
        _ => {
            if sized {
                fields.bytes(end);
            }
        }
    }
}

// The command within splice_command_length; 0xFFF leaves the end to the table.
fn command_within(
    numbers: Numbers,
    fields: &mut Fields,
    splice_command_type: u64,
    splice_command_length: u16,
)
    ensures lays { (env : Env) (end : ℕ) → value_of env "splice_command_type" ≡ splice_command_type → value_of env "splice_command_length" ≡ splice_command_length → Lays sized_command env (given numbers.entry) end (so_far fields.old) (so_far fields.new) }
    ensures memory { SameMemory fields.old fields.new }
{
    if splice_command_length == 0xFFF {
        command(numbers, fields, 0, splice_command_type, false);
        return;
    }
    let end = fields.at + 8 * (splice_command_length as usize);
    command(numbers, fields, end, splice_command_type, true);
}

// The same from a place on, where the memory has room for it.
pub fn sized_command(
    numbers: Numbers,
    widths: &mut [u8],
    p: Place,
    splice_command_type: u64,
    splice_command_length: u16,
) -> Place
    ensures { (env : Env) (end : ℕ) → value_of env "splice_command_type" ≡ splice_command_type → value_of env "splice_command_length" ≡ splice_command_length → plan result widths.new ≡ kept (walk sized_command env (given numbers.entry) end) (plan p widths.old) }
{
    if !fields::has_room(widths, p) {
        return p;
    }
    let mut fields = Fields {
        widths,
        at: p.at,
        number: p.number,
    };
    command_within(
        numbers,
        &mut fields,
        splice_command_type,
        splice_command_length,
    );
    fields.place()
}
