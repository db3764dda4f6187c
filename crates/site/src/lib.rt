// A factory buffer and a site buffer of one struct, with a mask of the members that were set on site (02, E8, E11).
#![tactic(auto)]

pub mod block;
pub mod buffers;
pub mod clear;
pub mod mask;
pub mod member;
pub mod set;
pub mod spot;
pub mod start;
