/// The place of a struct in its program's list of structs.
#[derive(Debug, Drop, Clone, Copy, PartialEq, Eq)]
pub struct StructId {
    pub index: u32,
}

/// The place of a constant in its program's list of constants.
#[derive(Debug, Drop, Clone, Copy, PartialEq, Eq)]
pub struct ConstId {
    pub index: u32,
}

/// The place of a function in its program's list of functions.
#[derive(Debug, Drop, Clone, Copy, PartialEq, Eq)]
pub struct FunId {
    pub index: u32,
}
