// The solver and the judge: a problem's bytes in, document 01's answer out. What is lent stays the caller's: every refusal leaves the output as it was,
// and the work tables may hold anything before.
#![tactic(auto)]

pub mod tables; // tables.rt: the work tables
pub mod entries; // entries.rt: the entries of both
