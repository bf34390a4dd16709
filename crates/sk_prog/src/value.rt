use sk_base::List;

/// What a variable can hold when a program runs.
#[derive(Debug, Drop)]
pub enum Value {
    Bit(bool),
    Int(i64),
    Null,
    /// A record of the heap, by its place.
    Place(usize),
    Array(List<Value>),
}
