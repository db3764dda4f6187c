// The layout file as numbers: its trailer with the refusals 1 to 4, its type entries and its member entries.
#![tactic(auto)]

pub mod fields;
pub mod kinds;
pub mod trailer;
