//! Which lists are told when limits are reached: due by due, in any order, they are the timeouts and the closed matches of a tick.
//! The definitions stand in `specs/`, and the laws in `proofs/`. No function here does anything when it runs.
#![tactic(auto)]
