// What cleaning changed, and all numbers of an entry. A call answers a `Result` with its refusal; what that says is `said` (specs/Answer).

// What cleaning changed: how many bytes, and the offset of the first, which is the extent where none did.
#[derive(Clone, Copy, Debug, PartialEq, Eq)]
pub struct Gaps {
    pub changed: u32,
    pub first: u32,
}

// The numbers of an entry: size, alignment, minimum size, stride; `None` where it has none.
#[derive(Clone, Copy, Debug, PartialEq, Eq)]
pub struct Sizes {
    pub size: Option<u32>,
    pub align: Option<u32>,
    pub min: Option<u32>,
    pub stride: Option<u32>,
}
