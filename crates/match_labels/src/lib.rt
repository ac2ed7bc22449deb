//! The labels by which the shared buffer tells the lists apart that end at one event in one state, and that no two of these labels begin one another.
//! The definition stands in `specs/`, and the laws in `proofs/`. No function here does anything when it runs.
#![tactic(auto)]
