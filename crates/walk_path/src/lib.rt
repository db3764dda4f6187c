// Walking a path by the table: a step, what it leads to, and all steps of a path. Entry numbers fall.
#![tactic(auto)]

pub mod enter;
pub mod step;
pub mod walk;
