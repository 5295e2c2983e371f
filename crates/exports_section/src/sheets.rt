// A section's field sheet, and the section of a field sheet.
ghost use Rattle.std.specs.Prelude.{◌≡◌};
ghost use Rattle.sheet.specs.Sheet.{to_sheet, to_sheet_into, to_section, to_section_into};
ghost use Rattle.wire.specs.Wire.{wire};

// The numbers of a section's field sheet, written to the front of out.
#[unsafe(no_mangle)]
pub extern "C" fn timpanimist_section_to_sheet(section: &[u8], out: &mut [u64]) -> u64
    ensures { (result ≡ wire (to_sheet section.now out.old)) × (out.new ≡ to_sheet_into section.now out.old) }
{
    wire::number(sheet::from_section(section, out))
}

// The bytes of the section that has the field sheet, written to the front of out.
#[unsafe(no_mangle)]
pub extern "C" fn timpanimist_sheet_to_section(sheet: &[u64], out: &mut [u8]) -> u64
    ensures { (result ≡ wire (to_section sheet.now out.old)) × (out.new ≡ to_section_into sheet.now out.old) }
{
    wire::number(sheet::to_section(sheet, out))
}
