//! Tables of the top call, over files and streams in memory, and of the loop over lines. They stand apart from the crates that they try, so that those are proved
//! once.
#![tactic(auto)]

#[cfg(test)]
mod edges;
#[cfg(test)]
mod failing;
#[cfg(test)]
mod gauges;
#[cfg(test)]
mod limited;
#[cfg(test)]
mod loads;
#[cfg(test)]
mod options;
#[cfg(test)]
mod patterns;
#[cfg(test)]
mod sessions;
#[cfg(test)]
mod sizes;
#[cfg(test)]
mod statuses;
