//! What a buffer holds where its paths are the lists of partial matches: which lists have an edge, which events stand, how much stands, and what each put,
//! hold and release makes of it.
//! The definitions stand in `specs/`, and the laws in `proofs/` tie them to the buffer's contracts. No function here does anything when it runs.
#![tactic(auto)]
