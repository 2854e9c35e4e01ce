//! A chunk's line (RFC 9112, section 7.1).
ghost use Rattle.std.specs.Prelude.{◌≡◌, ◌≤◌, ◌<◌, length, drop, take_while};
ghost use Rattle.std.specs.Char.{is_ascii_hexdigit};
ghost use Rattle.zot_head.specs.Chunked.{is_extension_byte as is_extension_byte_of, is_feed as is_feed_of, ends_extension as ends_extension_of, ends_size as ends_size_of, hex_digits, size_of as size_of_line};

use crate::digits::digits_value;

/// The most digits of a chunk's size.
const MAX_DIGITS: usize = 16;

/// A byte of an extension (RFC 9112, section 7.1.1): a tab, or one from 0x20 to 0x7e.
fn is_extension_byte(b: u8) -> bool
    ensures { result ≡ is_extension_byte_of b }
{
    b == b'\t' || (32 <= b && b <= 126)
}

/// Whether LF stands at the place, and nothing after it.
fn is_feed(bytes: &[u8], at: usize) -> bool
    ensures { result ≡ is_feed_of (drop at bytes.now) }
{
    match &bytes[at.min(bytes.len())..] {
        [b] => *b == b'\n',
        _ => false,
    }
}

/// Whether the bytes from the place on are those of an extension, and then CR LF.
fn ends_extension(bytes: &[u8], at: usize) -> bool
    ensures { result ≡ ends_extension_of (drop at bytes.now) }
{
    for i in at..bytes.len() {
        let b = bytes[i];
        if !is_extension_byte(b) {
            return b == b'\r' && is_feed(bytes, i + 1);
        }
    }
    false
}

/// Whether CR LF stands from the place on, or a semicolon, an extension and CR LF.
fn ends_size(bytes: &[u8], at: usize) -> bool
    requires { at ≤ length bytes.now }
    ensures { result ≡ ends_size_of (drop at bytes.now) }
{
    if at == bytes.len() {
        return false;
    }
    let b = bytes[at];
    if b == b';' {
        return ends_extension(bytes, at + 1);
    }
    b == b'\r' && is_feed(bytes, at + 1)
}

/// How many hexadecimal digits stand in front.
fn hex_len(line: &[u8]) -> usize
    ensures { result ≡ length (hex_digits line.now) }
{
    line.iter().take_while(|b| b.is_ascii_hexdigit()).count()
}

/// The size that a chunk's line gives.
pub(crate) fn size_of(line: &[u8]) -> Option<u64>
    ensures { result ≡ size_of_line line.now }
{
    let len = hex_len(line);
    if len == 0 || len > MAX_DIGITS || !ends_size(line, len) {
        return None;
    }
    Some(digits_value(16, &line[..len]))
}
