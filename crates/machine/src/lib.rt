// The run in code: one step, and the loop that yields its verdict.
#![tactic(auto)]

pub mod step; // step.rt: one step of the run
pub mod verdict; // verdict.rt: the loop that yields its verdict
