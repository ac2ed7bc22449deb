//! Tables of the words of the command line, of sources and sinks, of lines, their fields and their records. They stand apart from the crates that they try, so
//! that those are proved once.
#![tactic(auto)]

#[cfg(test)]
mod fields;
#[cfg(test)]
mod lines;
#[cfg(test)]
mod outside;
#[cfg(test)]
mod records;
#[cfg(test)]
mod words;
