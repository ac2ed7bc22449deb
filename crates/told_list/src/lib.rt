//! Lists that their keeper may tell, as what a gauge was shown: what it means that one grew, by how much, and by how much at most.
//! The definitions stand in `specs/`, their laws in `proofs/`. No function here does anything when it runs.
#![tactic(auto)]
