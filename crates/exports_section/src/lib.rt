// Texts, bytes and sections for programs in other languages: base64, the CRC, acceptance, the field sheet, fields of bits and the
// clock. A slice passes as a pointer and then a length. An answer that is a count or a refusal is one number: the count, or 2^63
// plus the refusal's number.
#![tactic(auto)]

mod acceptance;
mod clocks;
mod field_bits;
mod sheets;
mod texts;
