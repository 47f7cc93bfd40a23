// What the solver and the judge give back for a problem that was read: the run under their protection, and what comes after its end.
#![tactic(auto)]

pub mod running; // running.rt: the run of a problem that was read
pub mod solving; // solving.rt: the solver after its reader
pub mod judging; // judging.rt: the judge after its reader
