//! Where a request stands to a member.

/// Where a request that came to a member is answered.
#[derive(Clone, Copy, Debug)]
pub enum Place {
    /// It asks for the base route, and is on no repository.
    Base,
    /// The member owns the repository.
    Own,
    /// Another member owns the repository, and the request was handed on already.
    Refused,
    /// The member with this number owns the repository, and is to be asked.
    Foreign(u32),
}
