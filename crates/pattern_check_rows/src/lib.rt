//! Tables of pattern files and what the checker answers. They stand apart from `pattern_check`, so that its proof is not made twice.
#![tactic(auto)]

#[cfg(test)]
mod limits;
#[cfg(test)]
mod rows;
