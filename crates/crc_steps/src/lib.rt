// What the register of the CRC comes to after bits of 0: definitions and laws, for the tables and for the crate that looks into
// them.
#![tactic(auto)]
