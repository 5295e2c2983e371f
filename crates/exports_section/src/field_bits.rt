// A field of bits at any place of lent bytes, read and written.
ghost use Rattle.std.specs.Prelude.{◌≡◌};
ghost use Rattle.bits.specs.Bits.{field_of, writable, written_of};

// The field of `width` bits at bit `at`; 0 where it is wider than 48 bits or runs past the end.
#[unsafe(no_mangle)]
pub extern "C" fn timpanimist_field_read(bytes: &[u8], at: usize, width: usize) -> u64
    ensures { result ≡ field_of bytes.now at width }
{
    bits::read(bytes, at, width)
}

// Gives that field the value, and says whether it did.
#[unsafe(no_mangle)]
pub extern "C" fn timpanimist_field_write(
    bytes: &mut [u8],
    at: usize,
    width: usize,
    value: u64,
) -> bool
    ensures { (result ≡ writable bytes.old at width value) × (bytes.new ≡ written_of bytes.old at width value) }
{
    bits::write(bytes, at, width, value)
}
