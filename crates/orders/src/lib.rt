// A better member order: `plan_order` offers one, and `check_order` says whether one is accepted.
#![tactic(auto)]

pub mod check;
pub mod plan;
