use crate::ids::StructId;

/// A type of single values.
#[derive(Debug, Drop, Clone, Copy, PartialEq, Eq)]
pub enum Elem {
    Bit,
    Int,
    /// A reference to a record of a struct, or null.
    Reference(StructId),
}

/// A type.
#[derive(Debug, Drop, Clone, Copy, PartialEq, Eq)]
pub enum Ty {
    One(Elem),
    /// `T[n]`: n elements of type T.
    Array(Elem, u32),
    /// `T[n][m]`: m elements of type `T[n]`; n stands first here.
    Grid(Elem, u32, u32),
}
