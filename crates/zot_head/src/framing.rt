/// How a request's body is framed (RFC 9112, section 6.3).
#[derive(Clone, Copy, Debug)]
pub enum Framing {
    /// There is no body.
    None,
    /// The body has so many bytes.
    Length(u64),
    /// The body comes in chunks.
    Chunked,
}
