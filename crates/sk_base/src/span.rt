/// A range of bytes of the text, `to` excluded. Both are byte offsets from the text's first byte.
#[derive(Debug, Drop, Clone, Copy, PartialEq, Eq)]
pub struct Span {
    pub from: u32,
    pub to: u32,
}
