// The fields of a section's descriptors: a function for each table of the standard, which lays the table's fields out. One walk
// serves both directions: what a field holds comes from the section's bits or from a sheet's numbers.
#![tactic(auto)]

ghost use Rattle.std.specs.Prelude.{◌≡◌, ℕ, ◌-◌};
ghost use Rattle.grammar.specs.Meaning.{Env, value_of};
ghost use Rattle.grammar.specs.Tables.{bytes, dtmf_descriptor, delivery, segmentation_components, segmentation_end, segmentation_descriptor, audio_descriptor, known_descriptor, splice_descriptor, descriptor_loop};
ghost use Rattle.fields.specs.Fields.{Source, plan, sweep_on, walk, kept, Lays};
ghost use Rattle.fields.specs.SoFar.{given, so_far, SameMemory};

use fields::{Fields, Numbers, Place};

// Table 19, after the identifier.
fn dtmf_descriptor(numbers: Numbers, fields: &mut Fields)
    ensures lays { (env : Env) (end : ℕ) → Lays dtmf_descriptor env (given numbers.entry) end (so_far fields.old) (so_far fields.new) }
    ensures memory { SameMemory fields.old fields.new }
{
    let dtmf_count = numbers.value(fields.at + 8, fields.number + 1, 3);
    fields.lay(&[8, 3, 5]);
    fields.groups(dtmf_count, &[8]);
}

// Table 28, after the identifier.
fn audio_descriptor(numbers: Numbers, fields: &mut Fields)
    ensures lays { (env : Env) (end : ℕ) → Lays audio_descriptor env (given numbers.entry) end (so_far fields.old) (so_far fields.new) }
    ensures memory { SameMemory fields.old fields.new }
{
    let audio_count = numbers.value(fields.at, fields.number, 4);
    fields.lay(&[4, 4]);
    fields.groups(audio_count, &[8, 24, 3, 4, 1]);
}

// Table 20, the restrictions.
fn delivery(fields: &mut Fields, delivery_not_restricted_flag: u64)
    ensures lays { (env : Env) (v : Source) (end : ℕ) → value_of env "delivery_not_restricted_flag" ≡ delivery_not_restricted_flag → Lays delivery env v end (so_far fields.old) (so_far fields.new) }
    ensures memory { SameMemory fields.old fields.new }
{
    if delivery_not_restricted_flag == 0 {
        fields.lay(&[1, 1, 1, 2]);
    } else {
        fields.lay(&[5]);
    }
}

// Table 20, the components.
fn segmentation_components(numbers: Numbers, fields: &mut Fields, program_segmentation_flag: u64)
    ensures lays { (env : Env) (end : ℕ) → value_of env "program_segmentation_flag" ≡ program_segmentation_flag → Lays segmentation_components env (given numbers.entry) end (so_far fields.old) (so_far fields.new) }
    ensures memory { SameMemory fields.old fields.new }
{
    if program_segmentation_flag != 0 {
        return;
    }
    let component_count = numbers.value(fields.at, fields.number, 8);
    fields.lay(&[8]);
    fields.groups(component_count, &[8, 7, 33]);
}

// Table 20, from the UPID on.
fn segmentation_end(numbers: Numbers, fields: &mut Fields, end: usize)
    ensures lays { (env : Env) → Lays segmentation_end env (given numbers.entry) end (so_far fields.old) (so_far fields.new) }
    ensures memory { SameMemory fields.old fields.new }
{
    let segmentation_upid_length = numbers.value(fields.at + 8, fields.number + 1, 8);
    fields.lay(&[8, 8]);
    fields.groups(segmentation_upid_length, &[8]);
    let segmentation_type_id = numbers.value(fields.at, fields.number, 8);
    fields.lay(&[8, 8, 8]);
    // the two bytes of some types may be left out
    if descriptors::is_sub_segmented(segmentation_type_id as u8) && fields.at < end {
        fields.lay(&[8, 8]);
    }
}

// Table 20, after the identifier.
fn segmentation_descriptor(numbers: Numbers, fields: &mut Fields, end: usize)
    ensures lays { (env : Env) → Lays segmentation_descriptor env (given numbers.entry) end (so_far fields.old) (so_far fields.new) }
    ensures memory { SameMemory fields.old fields.new }
{
    let cancelled = numbers.value(fields.at + 32, fields.number + 1, 1);
    fields.lay(&[32, 1, 7]);
    if cancelled != 0 {
        return;
    }
    let program_segmentation_flag = numbers.value(fields.at, fields.number, 1);
    let segmentation_duration_flag = numbers.value(fields.at + 1, fields.number + 1, 1);
    let delivery_not_restricted_flag = numbers.value(fields.at + 2, fields.number + 2, 1);
    fields.lay(&[1, 1, 1]);
    delivery(fields, delivery_not_restricted_flag);
    segmentation_components(numbers, fields, program_segmentation_flag);
    if segmentation_duration_flag == 1 {
        fields.lay(&[40]);
    }
    segmentation_end(numbers, fields, end);
}

// The standard's own descriptors, after the identifier, by tag (Table 16); any other has bytes.
fn known_descriptor(numbers: Numbers, fields: &mut Fields, end: usize, splice_descriptor_tag: u64)
    ensures lays { (env : Env) → value_of env "splice_descriptor_tag" ≡ splice_descriptor_tag → Lays (known_descriptor (bytes "private_byte")) env (given numbers.entry) end (so_far fields.old) (so_far fields.new) }
    ensures memory { SameMemory fields.old fields.new }
{
    match splice_descriptor_tag {
        0 => fields.lay(&[32]),
        1 => dtmf_descriptor(numbers, fields),
        2 => segmentation_descriptor(numbers, fields, end),
        3 => fields.lay(&[48, 32, 16]),
        4 => audio_descriptor(numbers, fields),
        _ => fields.bytes(end),
    }
}

// Table 17.
fn splice_descriptor(numbers: Numbers, fields: &mut Fields)
    ensures lays { (env : Env) (end : ℕ) → Lays splice_descriptor env (given numbers.entry) end (so_far fields.old) (so_far fields.new) }
    ensures memory { SameMemory fields.old fields.new }
{
    let splice_descriptor_tag = numbers.value(fields.at, fields.number, 8);
    let descriptor_length = numbers.value(fields.at + 8, fields.number + 1, 8);
    fields.lay(&[8, 8]);
    let end = fields.at + 8 * (descriptor_length as usize);
    let identifier = numbers.value(fields.at, fields.number, 32);
    fields.lay(&[32]);
    if identifier == 0x43554549 {
        known_descriptor(numbers, fields, end, splice_descriptor_tag);
    } else {
        fields.bytes(end);
    }
}

// Descriptors up to the end of the loop, as long as there is room for them.
fn splice_descriptors(numbers: Numbers, fields: &mut Fields, end: usize)
    ensures lays { (env : Env) → sweep_on (end - fields.old.at) (walk splice_descriptor env (given numbers.entry) end) end (so_far fields.old) ≡ so_far fields.new }
    ensures memory { SameMemory fields.old fields.new }
{
    while fields.at < end {
        let at = fields.at;
        splice_descriptor(numbers, fields);
        if fields.at <= at {
            return;
        }
    }
}

// Table 5, from descriptor_loop_length on.
fn whole_loop(numbers: Numbers, fields: &mut Fields)
    ensures lays { (env : Env) (end : ℕ) → Lays descriptor_loop env (given numbers.entry) end (so_far fields.old) (so_far fields.new) }
    ensures memory { SameMemory fields.old fields.new }
{
    let descriptor_loop_length = numbers.value(fields.at, fields.number, 16);
    fields.lay(&[16]);
    let end = fields.at + 8 * (descriptor_loop_length as usize);
    splice_descriptors(numbers, fields, end);
}

// The same from a place on, where the memory has room for it.
pub fn descriptor_loop(numbers: Numbers, widths: &mut [u8], p: Place) -> Place
    ensures { (env : Env) (end : ℕ) → plan result widths.new ≡ kept (walk descriptor_loop env (given numbers.entry) end) (plan p widths.old) }
{
    if !fields::has_room(widths, p) {
        return p;
    }
    let mut fields = Fields {
        widths,
        at: p.at,
        number: p.number,
    };
    whole_loop(numbers, &mut fields);
    fields.place()
}
