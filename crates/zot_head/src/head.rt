use crate::field_list::FieldList;
use crate::framing::Framing;
use zot_digest::Words;

/// The head of a request.
#[derive(Drop)]
pub struct Head {
    /// The method, as it stands (RFC 9112, section 3.1).
    pub method: Words,
    /// The request target, as it stands (RFC 9112, section 3.2).
    pub target: Words,
    /// The field lines, in their order.
    pub fields: FieldList,
    /// How the body is framed.
    pub framing: Framing,
    /// Whether a `100 Continue` is owed before the body is read (RFC 9110, section 10.1.1).
    pub expects: bool,
    /// Whether the connection closes after this request (RFC 9112, section 9.6).
    pub closes: bool,
}
