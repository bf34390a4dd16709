//! What fields are, and tests of tags.

/// What a field is.
#[derive(Drop, Clone, Copy)]
pub enum Role {
    /// A field of a struct that is not algebraic.
    Free,
    /// The tag of an algebraic struct.
    Tag,
    /// A field of the variant of this number.
    Of(usize),
}

/// The test `x.tag == i`: the slot of x, and i.
#[derive(Drop, Clone, Copy)]
pub struct Test {
    pub slot: u32,
    pub variant: u32,
}
