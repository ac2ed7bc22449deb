//! Tables of lists, of conditions and of what they say, over lists and over kept sums. They stand apart from the crates that they try, so that those are
//! proved once.
#![tactic(auto)]

#[cfg(test)]
mod conditions;
#[cfg(test)]
mod lists;
#[cfg(test)]
mod ready;
