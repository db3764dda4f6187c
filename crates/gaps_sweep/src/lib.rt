// Sweeping gaps: one gap, the gaps between words that lie in parts, and those of elements by their pieces. What a sweep leaves is one
// equation over the places that it passes (specs/Sweep).
#![tactic(auto)]

pub mod gap;
pub mod parts;
pub mod pieces;
