// The lists of a section's command, by number from 0: the components of an insert, and the bytes of a private command.
// The functions take any bytes: where these have no command that follows its table and its length, its lists have nothing.
#![tactic(auto)]

mod parts;

ghost use Rattle.std.specs.Prelude.{◌≡◌};
ghost use Rattle.command_reading.specs.Command.{command_trace};
ghost use Rattle.command_lists.specs.Lists.{insert_component_of, private_byte_of};

use command_reading::InsertComponent;
use units::Refusal;

// Component n of its insert.
pub fn insert_component(s: &[u8], n: usize) -> Result<InsertComponent, Refusal>
    ensures { result ≡ insert_component_of (command_trace s.now) n }
{
    let end = command_reading::end(s).ok_or(Refusal::NotHere)?;
    if s[13] != 0x05 {
        return Err(Refusal::NotHere);
    }
    // splice_event_cancel_indicator
    if bits::flag(s, 144) {
        return Err(Refusal::NotHere);
    }
    // program_splice_flag
    if bits::flag(s, 153) {
        return Err(Refusal::NotHere);
    }
    // component_count
    if (bits::read(s, 160, 8) as usize) <= n {
        return Err(Refusal::NotHere);
    }
    let splice_immediate_flag = bits::read(s, 155, 1) as u8;
    let place = commands::insert_component_at(s, 21, end, n, splice_immediate_flag);
    let at = place.ok_or(Refusal::NotHere)?;
    Ok(parts::insert_component(s, at, splice_immediate_flag == 1))
}

// Byte n of its private command, after the identifier.
pub fn private_byte(s: &[u8], n: usize) -> Result<u8, Refusal>
    ensures { result ≡ private_byte_of (command_trace s.now) n }
{
    let end = command_reading::end(s).ok_or(Refusal::NotHere)?;
    if s[13] != 0xFF {
        return Err(Refusal::NotHere);
    }
    if end - 18 <= n {
        return Err(Refusal::NotHere);
    }
    Ok(s[18 + n])
}
