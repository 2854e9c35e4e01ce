ghost use Rattle.std.specs.Prelude.{◌≡◌, ℕ, ◌<◌, ◌≤◌, length};
ghost use Rattle.zot_head.specs.Found.{found_of};
ghost use Rattle.zot_head.specs.Limits.{head_limit};
ghost use Rattle.zot_head.specs.Lines.{head_end as head_end_of, extent};

use crate::limits::HEAD_LIMIT;
use crate::lines::head_end;

/// Where a message's head ends.
#[derive(Clone, Copy, Debug, PartialEq, Eq)]
pub enum Found {
    /// It isn't whole yet.
    More,
    /// It is the first so many bytes.
    Head(usize),
    /// It doesn't end within 16,384 bytes.
    TooLong,
}

/// Where the head ends of the message that begins with these bytes: after the first empty line after a
/// line that isn't empty (RFC 9112, section 2.1). Empty lines in front count (section 2.2), and a line
/// ends with LF. `Head(n)` and `TooLong` stay what they are when more bytes come. Takes no memory.
pub fn find_head(bytes: &[u8]) -> Found
    ensures found { result ≡ found_of (extent head_end_of head_limit bytes.now) }
    ensures within { (n : ℕ) → result ≡ Found.Head n → (0 < n) × (n ≤ length bytes.now) }
{
    match head_end(&bytes[..bytes.len().min(HEAD_LIMIT)]) {
        Some(n) => Found::Head(n),
        None if bytes.len() < HEAD_LIMIT => Found::More,
        None => Found::TooLong,
    }
}
