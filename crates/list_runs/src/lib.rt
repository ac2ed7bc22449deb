//! Lists that wait for a stage: what an event makes of them, and which lists of the events they are. Laws alone.
#![tactic(auto)]
