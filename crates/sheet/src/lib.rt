// The field sheet of a section, every field as one number in order, and the section of a field sheet.
#![tactic(auto)]

ghost use Rattle.std.specs.Prelude.{◌≡◌, ◌≤◌, length, take, replicate};
ghost use Rattle.bits.specs.Bits.{write_all};
ghost use Rattle.sheet.specs.Sheet.{pairs, filled, summed, room_for, Judged, to_section, to_section_into};

pub use sheet_reading::from_section;
use units::{MOST_FIELDS, MOST_SECTION, Refusal};

// The bytes of the section that has the sheet, written to the front of out. What the numbers make counts only if it is a
// section and has that sheet.
pub fn to_section(sheet: &[u64], out: &mut [u8]) -> Result<usize, Refusal>
    ensures { (result ≡ to_section sheet.now out.old) × (out.new ≡ to_section_into sheet.now out.old) }
{
    // the header has 11 numbers
    if sheet.len() < 11 {
        return Err(Refusal::Sheet);
    }
    if MOST_FIELDS < sheet.len() {
        return Err(Refusal::Sheet);
    }
    if sheet.len() <= 256 {
        let mut widths = [0u8; 256];
        return bytes(sheet, &mut widths, out);
    }
    let mut widths = [0u8; MOST_FIELDS];
    bytes(sheet, &mut widths, out)
}

// The same with memory for the widths of the fields.
fn bytes(sheet: &[u64], widths: &mut [u8], out: &mut [u8]) -> Result<usize, Refusal>
    requires { (11 ≤ length sheet.now) × (length sheet.now ≤ 32768) × (widths.old ≡ replicate (room_for (length sheet.now) 256 32768) 0) }
    ensures { (result ≡ to_section sheet.now out.old) × (out.new ≡ to_section_into sheet.now out.old) }
{
    let fields = layout::plan(&[], sheet, widths);
    // 4,092 bytes stand before CRC_32 at most
    if 32736 < fields.at {
        return Err(Refusal::Sheet);
    }
    if fields.number != sheet.len() {
        return Err(Refusal::Sheet);
    }
    let n = fields.at / 8 + 4;
    if n <= 256 {
        let mut memory = [0u8; 256];
        return made(sheet, widths, &mut memory, n, out);
    }
    let mut memory = [0u8; MOST_SECTION];
    made(sheet, widths, &mut memory, n, out)
}

// The same of the n bytes that the numbers make with these widths.
fn made(
    sheet: &[u64],
    widths: &[u8],
    memory: &mut [u8],
    n: usize,
    out: &mut [u8],
) -> Result<usize, Refusal>
    requires { (4 ≤ n) × (n ≤ 4096) × (n ≤ length memory.old) × (4 ≤ length sheet.now) × (length sheet.now ≤ 32768) × (length sheet.now ≤ length widths.now) }
    ensures { Judged sheet.now (take n (summed n (filled sheet.now n widths.now memory.old))) out.old result out.new }
{
    compose(memory, sheet, widths, n);
    if !sheet_matching::is_sheet_of(sheet, &memory[..n]) {
        return Err(Refusal::Sheet);
    }
    if lent::put(&memory[..n], out, 0) {
        Ok(n)
    } else {
        Err(Refusal::Room)
    }
}

// Puts the numbers of a sheet, section_length and CRC_32 into the first n bytes.
fn compose(memory: &mut [u8], sheet: &[u64], widths: &[u8], n: usize)
    requires { (4 ≤ n) × (n ≤ 4096) × (n ≤ length memory.old) × (4 ≤ length sheet.now) × (length sheet.now ≤ 32768) × (length sheet.now ≤ length widths.now) }
    ensures { memory.new ≡ summed n (filled sheet.now n widths.now memory.old) }
{
    write_fields(memory, &sheet[..4], &widths[..4], 0);
    bits::write(memory, 12, 12, (n - 3) as u64);
    write_fields(memory, &sheet[4..], &widths[4..sheet.len()], 24);
    let sum = crc::crc(&memory[..n - 4]);
    bits::write(memory, 8 * (n - 4), 32, u64::from(sum));
}

// Gives the fields of these widths, the first of them at bit `at` of the section, their values.
fn write_fields(section: &mut [u8], sheet: &[u64], widths: &[u8], at: usize)
    requires { (length sheet.now ≡ length widths.now) × (length widths.now ≤ 32768) × (at ≤ 24) }
    ensures { section.new ≡ write_all section.old at (pairs widths.now sheet.now) }
{
    let mut place = at;
    for (number, width) in sheet.iter().zip(widths) {
        let width = usize::from(*width);
        bits::write(section, place, width, *number);
        place += width;
    }
}
