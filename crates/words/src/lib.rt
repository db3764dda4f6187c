// Writing and reading whole entries. Every refusal is decided before the first byte or word is stored.
#![tactic(auto)]

pub mod reading;
pub mod writing;
