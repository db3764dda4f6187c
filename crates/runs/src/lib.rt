// Runs: words of one width that lie one after the other, as the scalars of a vector, of a matrix column and of an array of scalars do;
// and parts, runs that each begin a stride after the one before.
#![tactic(auto)]

pub mod reading;
pub mod testing;
pub mod writing;

pub use reading::{read_few, read_parts, read_run};
pub use testing::{largest, scan_run};
pub use writing::{write_few, write_parts, write_run};

// `count` runs of `unit` words of `width` bytes, each a `stride` after the one before.
#[derive(Clone, Copy)]
pub struct Parts {
    pub count: usize,
    pub unit: usize,
    pub width: usize,
    pub stride: usize,
}
