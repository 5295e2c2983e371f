// The field sheet of a section: every field as one number, in order.
#![tactic(auto)]

ghost use Rattle.std.specs.Prelude.{◌≡◌, ◌*◌, ◌≤◌, length, Ok};
ghost use Rattle.section.specs.Accept.{accept_of};
ghost use Rattle.bits.specs.Bits.{read_all};
ghost use Rattle.sheet_reading.specs.SheetOf.{to_sheet, to_sheet_into, Laid};

use units::{MOST_FIELDS, Refusal};

// The numbers of a section's sheet, written to the front of out.
#[tactic(auto, using(crate::proofs::SheetRows::by_acceptance))]
pub fn from_section(section: &[u8], out: &mut [u64]) -> Result<usize, Refusal>
    ensures { (result ≡ to_sheet section.now out.old) × (out.new ≡ to_sheet_into section.now out.old) }
{
    section::accept(section)?;
    // a field has a bit at least
    if section.len() <= 256 {
        let mut widths = [0u8; 2048];
        return numbers(section, &mut widths, out);
    }
    let mut widths = [0u8; MOST_FIELDS];
    numbers(section, &mut widths, out)
}

// The same of an accepted section, with memory for the widths of its fields.
fn numbers(section: &[u8], widths: &mut [u8], out: &mut [u64]) -> Result<usize, Refusal>
    requires { (accept_of section.now ≡ Ok tt) × (8 * length section.now ≤ length widths.old) × (length widths.old ≤ 32768) }
    ensures { (result ≡ to_sheet section.now out.old) × (out.new ≡ to_sheet_into section.now out.old) }
{
    let n = lay_out(section, widths);
    if out.len() < n {
        return Err(Refusal::Room);
    }
    // section_length, at bit 12, is left out
    read_fields(section, &widths[..4], 0, &mut out[..4]);
    read_fields(section, &widths[4..n], 24, &mut out[4..n]);
    Ok(n)
}

// How many fields an accepted section has, with their widths put into the memory.
fn lay_out(section: &[u8], widths: &mut [u8]) -> usize
    requires { (accept_of section.now ≡ Ok tt) × (8 * length section.now ≤ length widths.old) × (length widths.old ≤ 32768) }
    ensures { Laid section.now widths.old result widths.new }
{
    layout::plan(section, &[], widths).number
}

// The values of fields of these widths, the first of them at bit `at` of the section, put into out.
fn read_fields(section: &[u8], widths: &[u8], at: usize, out: &mut [u64])
    requires { (length out.old ≡ length widths.now) × (length widths.now ≤ 32768) × (at ≤ 24) }
    ensures { out.new ≡ read_all section.now at widths.now }
{
    let mut place = at;
    for (i, width) in widths.iter().enumerate() {
        let width = usize::from(*width);
        out[i] = bits::read(section, place, width);
        place += width;
    }
}
