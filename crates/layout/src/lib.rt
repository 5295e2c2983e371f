// Which fields a section has, one after another: their widths, in lent memory. What a field holds is taken from the section's
// bits or, where there is a sheet, from the sheet's numbers, so one walk serves both directions. Nothing is refused here.
#![tactic(auto)]

ghost use Rattle.std.specs.Prelude.{◌≡◌, ℕ, List};
ghost use Rattle.grammar.specs.Meaning.{Env, value_of};
ghost use Rattle.fields.specs.Fields.{plan, Room, Lays};
ghost use Rattle.fields.specs.SoFar.{given};
ghost use Rattle.layout.specs.Layout;
ghost use Rattle.layout.specs.Layout.{opening, plan_of};

use fields::{Numbers, Place};
use units::MOST_FIELDS;

// Table 5, from splice_command_type up to the end of the loop.
fn opening(numbers: Numbers, widths: &mut [u8], p: Place) -> Place
    requires { Room p widths.old }
    ensures { ((env : Env) (end : ℕ) → value_of env "splice_command_length" ≡ given numbers.entry 92 10 12 → Lays opening env (given numbers.entry) end (plan p widths.old) (plan result widths.new)) × Room result widths.new }
{
    let splice_command_length = numbers.value(92, 10, 12);
    let splice_command_type = numbers.value(p.at, p.number, 8);
    let part = fields::group(widths, p, &[8]);
    let after = layout_commands::sized_command(
        numbers,
        widths,
        part,
        splice_command_type,
        splice_command_length as u16,
    );
    layout_descriptors::descriptor_loop(numbers, widths, after)
}

// How many bytes are left for stuffing, or for what is sealed: the sheet's numbers, or what the section has before CRC_32.
fn left(numbers: Numbers, p: Place) -> u64
    ensures { (m : List ℕ) → result ≡ Layout.left numbers.entry.section.now numbers.entry.sheet.now (plan p m) }
{
    let count = if numbers.sheet.is_empty() {
        let used = p.at / 8 + 4;
        numbers.section.len().saturating_sub(used)
    } else {
        numbers.sheet.len().saturating_sub(p.number)
    };
    count as u64
}

// The widths of all fields, section_length left out: of the section or, where there is a sheet, of the section that has it.
// Gives the bit after the last field, and how many they are. Memory longer than 32,768, more than any section needs, is not
// used.
pub fn plan(section: &[u8], sheet: &[u64], widths: &mut [u8]) -> Place
    ensures { plan result widths.new ≡ plan_of section.now sheet.now widths.old }
{
    if MOST_FIELDS < widths.len() {
        return Place { at: 0, number: 0 };
    }
    let numbers = Numbers { section, sheet };
    let encrypted_packet = numbers.value(32, 5, 1);
    // the 12 bits of section_length are counted first
    let start = Place { at: 12, number: 0 };
    let header = fields::group(widths, start, &[8, 1, 1, 2, 8, 1, 6, 33, 8, 12, 12]);
    if encrypted_packet == 1 {
        let count = left(numbers, header);
        return fields::groups(widths, header, count, &[8]);
    }
    let stuffing = opening(numbers, widths, header);
    let count = left(numbers, stuffing);
    fields::groups(widths, stuffing, count, &[8])
}
