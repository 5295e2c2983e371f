// The house's answers on a section: the break, the effective time, the bill label and the two DVB-DASH answers. Every
// function takes any bytes. Each subject has a crate of its own, and this is the one door to them all.
#![tactic(auto)]

pub use breaks::{Break, break_answer, dash_duration};
pub use labels::{Part, bill_label, label};
pub use times::{dvb, effective_time};
