//! How a connection ends.

/// How a connection ended.
#[derive(Clone, Copy, Debug)]
pub enum End {
    /// The input ended between messages, or the last request asked to close the connection; all replies were written.
    Closed,
    /// What stood in a message's place was refused with this status, 400, 413 or 431, which was written last.
    Refused(u16),
    /// The input ended after so many bytes of a message, at least one and more than empty lines; all replies were written.
    Torn(u64),
    /// The source failed.
    ReadFault,
    /// The sink failed; a prefix of what was to be written was.
    WriteFault,
    /// The connection brought all the bytes that it may, and the message at hand isn't complete.
    Budget,
    /// Memory ran out; a prefix of what was to be written was.
    NoMemory,
}
