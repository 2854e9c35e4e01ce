//! Where lines, and the parts of a message that are made of lines, end.
ghost use Rattle.std.specs.Prelude.{◌≡◌, ◌≤◌, length, drop, false, IfSome};
ghost use Rattle.zot_head.specs.Lines.{begins_feed, section_end as section_end_of, blank_len as blank_len_of, head_end as head_end_of, lines_in as lines_in_of};

/// Whether an LF stands at the place.
fn has_feed(bytes: &[u8], at: usize) -> bool
    ensures { result ≡ begins_feed (drop at bytes.now) }
{
    at < bytes.len() && bytes[at] == b'\n'
}

/// The bytes through the first empty line, from within a line.
fn section_end(bytes: &[u8]) -> Option<usize>
    ensures value { result ≡ section_end_of false bytes.now }
    ensures within { IfSome result (λ n. n ≤ length bytes.now) }
{
    let mut starts = false;
    for i in 0..bytes.len() {
        let b = bytes[i];
        if starts && b == b'\n' {
            return Some(i + 1);
        }
        if starts && b == b'\r' && has_feed(bytes, i + 1) {
            return Some(i + 2);
        }
        starts = b == b'\n';
    }
    None
}

/// How many bytes the empty lines in front have.
pub(crate) fn blank_len(bytes: &[u8]) -> usize
    ensures value { result ≡ blank_len_of bytes.now }
    ensures within { result ≤ length bytes.now }
{
    let mut at = 0;
    while at < bytes.len() {
        if bytes[at] == b'\n' {
            at += 1;
        } else if bytes[at] == b'\r' && has_feed(bytes, at + 1) {
            at += 2;
        } else {
            break;
        }
    }
    at
}

/// The bytes through the first empty line after a line that isn't empty.
pub(crate) fn head_end(bytes: &[u8]) -> Option<usize>
    ensures value { result ≡ head_end_of bytes.now }
    ensures within { IfSome result (λ n. n ≤ length bytes.now) }
{
    let blank = blank_len(bytes);
    match section_end(&bytes[blank..]) {
        Some(n) => Some(blank + n),
        None => None,
    }
}

/// How many lines end in the bytes, without the empty ones in front.
pub(crate) fn lines_in(bytes: &[u8]) -> usize
    ensures { result ≡ lines_in_of bytes.now }
{
    let rest = &bytes[blank_len(bytes)..];
    rest.iter().filter(|b| **b == b'\n').count()
}
