// Words written, read and tested by pieces (crates/walk_pieces): the elements of an array one after the other, each piece by piece.
#![tactic(auto)]

pub mod reading;
pub mod testing;
pub mod writing;
