//! Tables of pattern files and what they are printed as. They stand apart from `cep_print`, so that its proof is not made twice.
#![tactic(auto)]

#[cfg(test)]
mod rows;
