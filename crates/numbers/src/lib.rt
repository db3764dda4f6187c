// Numbers in bytes, and numbers with a limit: the leaves that the other crates stand on.
#![tactic(auto)]

pub mod bytes;
pub mod limit;
pub mod power;
pub mod wide;
