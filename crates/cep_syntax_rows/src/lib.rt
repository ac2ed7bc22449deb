//! Tables of pattern files and what they are read as. They stand apart from `cep_syntax`, so that its proof is not made twice.
#![tactic(auto)]

#[cfg(test)]
mod rows;
