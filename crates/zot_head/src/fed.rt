/// What a piece of a body in chunks gave.
#[derive(Clone, Copy, Debug, PartialEq, Eq)]
pub struct Fed {
    /// How many of the piece's bytes belong to the body in chunks.
    pub taken: usize,
    /// Whether the body is whole. The bytes that aren't taken stand after it.
    pub done: bool,
}
