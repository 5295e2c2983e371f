// What commands say, for programs in other languages, as lists of numbers. A slice passes as a pointer and then a length. The
// answer is the count of numbers written, or 2^63 plus the refusal's number.
#![tactic(auto)]

mod events;
mod lists;
mod parts;
mod section_command;
