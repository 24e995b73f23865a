// Runs of what the lowerings write: definitions and theorems, and the calls with contracts that speak of runs.
#![tactic(auto)]

pub mod calls; // what a caller may rely on
