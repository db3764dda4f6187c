// What a path leads to.

// What stands for the kind of a scalar where a target is not one scalar.
pub const NO_SCALAR: u32 = 7;

// What a path leads to: its offset, its bytes, and the kind of the one scalar that it is, or `NO_SCALAR`.
#[derive(Clone, Copy, Debug, PartialEq, Eq)]
pub struct Target {
    pub offset: usize,
    pub size: usize,
    pub scalar: u32,
}
