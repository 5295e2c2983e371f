// Base64 text to bytes, and back.
ghost use Rattle.std.specs.Prelude.{◌≡◌};
ghost use Rattle.text.specs.Text;
ghost use Rattle.text.specs.Text.{read_into, write_into};
ghost use Rattle.wire.specs.Wire.{wire};

// The bytes of a base64 text, written to the front of out.
#[unsafe(no_mangle)]
pub extern "C" fn timpanimist_text_to_section(text: &[u8], out: &mut [u8]) -> u64
    ensures { (result ≡ wire (Text.read text.now out.old)) × (out.new ≡ read_into text.now out.old) }
{
    wire::number(text::to_section(text, out))
}

// The base64 text of a section's bytes, written to the front of out.
#[unsafe(no_mangle)]
pub extern "C" fn timpanimist_section_to_text(section: &[u8], out: &mut [u8]) -> u64
    ensures { (result ≡ wire (Text.write section.now out.old)) × (out.new ≡ write_into section.now out.old) }
{
    wire::number(text::to_text(section, out))
}
