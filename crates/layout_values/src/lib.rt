// What the table holds of an entry, and the kinds that refer to no other: scalars. Those that refer to one are in crates/layout_referring, structs in
// crates/layout_structs.
#![tactic(auto)]

pub mod scalars;
pub mod value;
