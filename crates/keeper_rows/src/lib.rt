//! Tables of saved rows, of what they state, of rows in memory and of recent ticks. They stand apart from the crate that they try, so that it is proved once.
#![tactic(auto)]

#[cfg(test)]
mod recent;
#[cfg(test)]
mod restoring;
#[cfg(test)]
mod rows;
