//! Words of a field's name or value, which are compared without regard to case.
ghost use Rattle.std.specs.Prelude.{◌≡◌, ◌≤◌, length, map};
ghost use Rattle.std.specs.Char.{to_ascii_lowercase};
ghost use Rattle.httparse.specs.Grammar.{trim_ows};
ghost use Rattle.zot_head.specs.Fields.{is_word as is_word_of};

use httparse::is_space_or_tab;

/// Whether the bytes are that word, which has no capital letter.
pub(crate) fn is_word(word: &[u8], bytes: &[u8]) -> bool
    requires { map to_ascii_lowercase word.now ≡ word.now }
    ensures { result ≡ is_word_of word.now bytes.now }
{
    bytes.eq_ignore_ascii_case(word)
}

/// The bytes without the spaces and tabs at both ends.
pub(crate) fn trim(bytes: &[u8]) -> &[u8]
    ensures { result.now ≡ trim_ows bytes.now }
{
    let mut start = 0;
    let mut end = bytes.len();
    while start < end && is_space_or_tab(bytes[start]) {
        start += 1;
    }
    while start < end && is_space_or_tab(bytes[end - 1]) {
        end -= 1;
    }
    &bytes[start..end]
}
