// Bytes put into lent memory.
#![tactic(auto)]

ghost use Rattle.std.specs.Prelude.{◌≡◌};
ghost use Rattle.units.specs.Put.{fits, put_into};

// Puts the bytes into the memory from place `at` on, and says whether it did: where they do not all fit, nothing changes.
pub fn put(bytes: &[u8], memory: &mut [u8], at: usize) -> bool
    ensures { (result ≡ fits memory.old at bytes.now) × (memory.new ≡ put_into memory.old at bytes.now) }
{
    if memory.len() < at {
        return false;
    }
    if memory.len() - at < bytes.len() {
        return false;
    }
    for (i, byte) in bytes.iter().enumerate() {
        memory[at + i] = *byte;
    }
    true
}
