// Views, sets and bit fields: what a path leads to in a buffer, and one scalar stored there. Every refusal is decided before a byte is stored.
#![tactic(auto)]

pub mod field;
pub mod locate;
pub mod set;
pub mod view;
