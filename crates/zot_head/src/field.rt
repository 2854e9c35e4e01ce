use zot_digest::{Bytes, Words};

/// One field line of a head (RFC 9112, section 5).
#[derive(Debug, Drop)]
pub struct Field {
    /// The field's name, as it stands.
    pub name: Words,
    /// The field's value, without the spaces and tabs at its ends.
    pub value: Bytes,
}
