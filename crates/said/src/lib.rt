// What calls answer: a refusal by its number and place, a number, the numbers of an entry, a target. What each of them says is a
// definition (specs/), and that it says no two things at once is a law (proofs/Single).
#![tactic(auto)]

pub mod answer;
pub mod refusal;
pub mod target;
