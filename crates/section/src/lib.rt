// Whether lent bytes are an SCTE 35 section: the rows 1 to 10 of paper 01's table, in their order.
#![tactic(auto)]

ghost use Rattle.std.specs.Prelude.{◌≡◌, ◌+◌, ◌-◌, ◌*◌, ◌≤◌, cond, length, is_ok, IfErr};
ghost use Rattle.bits.specs.Bits.{bit};
ghost use Rattle.grammar.specs.Syntax.{under};
ghost use Rattle.grammar.specs.Meaning.{Env, ends, breach, run};
ghost use Rattle.grammar.specs.Tables.{descriptor_loop, bytes, splice_descriptor};
ghost use Rattle.grammar.proofs.Run.{Runs, swept};
ghost use Rattle.section.specs.Accept.{accept_of, judged, IsGrammatical};
ghost use Rattle.section.specs.Judge.{judge_of, header_of};

use descriptors::Cursor;
use units::Refusal;

// Whether the bytes are a section: the first row that refuses them otherwise.
#[tactic(auto, using(crate::proofs::Judged::accepted_by))]
pub fn accept(s: &[u8]) -> Result<(), Refusal>
    ensures { result ≡ accept_of s.now }
{
    judge(s)?;
    Ok(())
}

// The same with what acceptance came upon: an open section's first descriptor stands at the cursor, and a sealed one has none.
pub fn judge(s: &[u8]) -> Result<Option<Cursor>, Refusal>
    ensures { result ≡ judge_of s.now }
{
    header(s)?;
    // encrypted_packet is the top bit
    if 128 <= s[4] {
        return Ok(None);
    }
    let at = commands::command_end(s).ok_or(Refusal::Command)?;
    descriptor_loop(s, at)?;
    let descriptor_loop_length = bits::pair(s, at) as usize;
    Ok(Some(Cursor {
        at: at + 2,
        end: at + 2 + descriptor_loop_length,
    }))
}

// Rows 1 to 7, which ask no more than the header and the CRC.
fn header(s: &[u8]) -> Result<(), Refusal>
    ensures { result ≡ header_of s.now }
{
    if s.len() < 20 {
        return Err(Refusal::Short);
    }
    if s[0] != 0xFC {
        return Err(Refusal::Table);
    }
    // section_syntax_indicator and private_indicator are the two top bits
    if 64 <= s[1] {
        return Err(Refusal::Syntax);
    }
    let section_length = bits::twelve(s, 1) as usize;
    if 4093 < section_length {
        return Err(Refusal::Size);
    }
    if section_length + 3 != s.len() {
        return Err(Refusal::Size);
    }
    if crc::crc(s) != 0 {
        return Err(Refusal::Crc);
    }
    if s[3] != 0 {
        return Err(Refusal::Version);
    }
    // encrypted_packet is the top bit
    if s[4] < 128 {
        return Ok(());
    }
    if s.len() < 24 {
        return Err(Refusal::Crypt);
    }
    Ok(())
}

// Table 5, from descriptor_loop_length on; what the loop leaves before the CRC is stuffing.
fn descriptor_loop(s: &[u8], at: usize) -> Result<(), Refusal>
    requires { (at + 4 ≤ length s.now) × (length s.now ≤ 4096) }
    ensures { ((env : Env) → Runs (under 9 descriptor_loop (bytes "alignment_stuffing")) env (bit s.now) (8 * (length s.now - 4)) (8 * at) (judged (length s.now - 4) result)) × IsGrammatical result }
{
    let end = s.len() - 4;
    if end - at < 2 {
        return Err(Refusal::Loop);
    }
    let descriptor_loop_length = bits::pair(s, at) as usize;
    if end - at - 2 < descriptor_loop_length {
        return Err(Refusal::Loop);
    }
    fills(s, at + 2, at + 2 + descriptor_loop_length)
}

// Table 17, one descriptor after another: refused where they do not fill the bytes from `at` up to `end` exactly.
fn fills(s: &[u8], at: usize, end: usize) -> Result<(), Refusal>
    requires { (at ≤ end) × (end ≤ length s.now) }
    ensures walk { (env : Env) → swept (run splice_descriptor env (bit s.now) (8 * end)) (8 * end) (8 * at) ≡ cond (is_ok result) (ends (8 * end)) (breach 0) }
    ensures refusal { IfErr result (λ r. r ≡ Refusal.Descriptor) }
{
    let mut cursor = Cursor { at, end };
    while let Some((_, next)) = cursor.step(s)? {
        cursor = next;
    }
    Ok(())
}
