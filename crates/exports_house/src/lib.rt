// The house's answers for programs in other languages: the break and its label, its time, and the answer lines of texts. A slice
// passes as a pointer and then a length. The answer is the count of numbers or bytes written, or 2^63 plus the refusal's number.
#![tactic(auto)]

mod answer_lines;
mod billing;
mod timing;
