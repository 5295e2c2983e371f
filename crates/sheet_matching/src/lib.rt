// Whether bytes are a section and have a given field sheet: the count first, then the numbers before and after section_length.
#![tactic(auto)]

ghost use Rattle.std.specs.Prelude.{◌≡◌, ◌*◌, ◌≤◌, length, Ok};
ghost use Rattle.section.specs.Accept.{accept_of};
ghost use Rattle.bits.specs.Bits.{read_all};
ghost use Rattle.sheet_reading.specs.SheetOf.{Laid};
ghost use Rattle.sheet_matching.specs.Matching.{same, is_sheet_of};

use units::MOST_FIELDS;

// Whether the bytes are a section and have that sheet.
pub fn is_sheet_of(sheet: &[u64], section: &[u8]) -> bool
    ensures { result ≡ is_sheet_of sheet.now section.now }
{
    if section::accept(section).is_err() {
        return false;
    }
    if section.len() <= 256 {
        let mut widths = [0u8; 2048];
        return same_sheet(sheet, section, &mut widths);
    }
    let mut widths = [0u8; MOST_FIELDS];
    same_sheet(sheet, section, &mut widths)
}

// The same of an accepted section, with memory for the widths of its fields.
fn same_sheet(sheet: &[u64], section: &[u8], widths: &mut [u8]) -> bool
    requires { (accept_of section.now ≡ Ok tt) × (8 * length section.now ≤ length widths.old) × (length widths.old ≤ 32768) }
    ensures { result ≡ is_sheet_of sheet.now section.now }
{
    let n = lay_out(section, widths);
    n == sheet.len()
        && same_fields(section, &sheet[..4], &widths[..4], 0)
        && same_fields(section, &sheet[4..], &widths[4..n], 24)
}

// How many fields an accepted section has, with their widths put into the memory.
fn lay_out(section: &[u8], widths: &mut [u8]) -> usize
    requires { (accept_of section.now ≡ Ok tt) × (8 * length section.now ≤ length widths.old) × (length widths.old ≤ 32768) }
    ensures { Laid section.now widths.old result widths.new }
{
    layout::plan(section, &[], widths).number
}

// Whether the fields of these widths, the first of them at bit `at` of the section, have the values on the sheet.
fn same_fields(section: &[u8], sheet: &[u64], widths: &[u8], at: usize) -> bool
    requires { (length sheet.now ≡ length widths.now) × (length widths.now ≤ 32768) × (at ≤ 24) }
    ensures { result ≡ same (read_all section.now at widths.now) sheet.now }
{
    let mut place = at;
    for (number, width) in sheet.iter().zip(widths) {
        let width = usize::from(*width);
        if bits::read(section, place, width) != *number {
            return false;
        }
        place += width;
    }
    true
}
