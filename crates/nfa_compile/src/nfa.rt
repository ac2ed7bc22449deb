//! The automaton.

use cep_event::{NumberList, Sequence};
use cep_plan::Contiguity;

/// The automaton of a plan.
#[derive(Debug, Drop)]
pub struct Nfa {
    /// The states, numbered from 1 in this order: stage by stage, and there by count.
    pub took: TookList,
    /// What is waited for before the first event, all in the mode `Any`.
    pub start: WaitList,
}

/// The state of the lists whose last event stands for the stage, and that have so many events of it.
#[derive(Debug, Drop)]
pub struct Took {
    /// The number of the stage, from 0.
    pub stage: u16,
    /// From 1 to the greatest number of the stage or, where it has none, to the number that it needs.
    pub count: u32,
    /// Whether its lists may also have more events of the stage: it is the last state of a loop without an end.
    pub open_ended: bool,
    /// Whether its lists are full. None is where a negation closes the pattern.
    pub full: bool,
    /// What its lists wait for, in order of stage.
    pub proceed: WaitList,
}

pub type TookList = Sequence<Took>;

/// What a list waits for: an event of a stage, or the end. The wait for the end has as its stage the number of stages, and leads to no state: its state and its count are 0.
#[derive(Debug, Drop)]
pub struct Wait {
    /// The number of the state that a take leads to, from 1.
    pub state: u16,
    /// The stage of that state.
    pub stage: u16,
    /// The count of that state.
    pub count: u32,
    /// Which events are let pass: none, those that don't fit, or all.
    pub mode: Contiguity,
    /// Whether it is a step of a strict or relaxed loop.
    pub same_chain: bool,
    /// The numbers of the negations between, in order. An event that satisfies one may end the wait.
    pub negations: NumberList,
}

pub type WaitList = Sequence<Wait>;
