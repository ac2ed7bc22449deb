//! How runs share a buffer after ticks: exactly the living lists have runs, exactly their fronts have edges, exactly their positions have events, and how
//! many of each there are.
//! The definitions stand in `specs/`, and the laws in `proofs/`. No function here does anything when it runs.
#![tactic(auto)]
