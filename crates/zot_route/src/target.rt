//! The target of a request.
ghost use Rattle.std.specs.Prelude.{◌≡◌, ◌==◌, IfOk, IsUtf8, MatchOption};
ghost use Rattle.std.specs.List.{AllByRecursion};
ghost use Rattle.zot_route.specs.Path.{decoded, segments_of, query_of};

use crate::decoded_text::DecodedText;
use std::alloc::{AllocError, Global};
use std::marker::Model;
use zot_cuts::cut;

/// The target of a request, cut into its path and its query (RFC 3986, section 3.4). Contracts see its text.
#[derive(Drop)]
pub struct Target<'a> {
    text: &'a str,
    path: &'a [u8],
    query: &'a [u8],
}

impl<'a> Model for Target<'a> {
    ghost use Rattle.std.specs.Prelude.{◌≡◌, ℕ, List};
    ghost use Rattle.zot_route.specs.Path.{decoded, segments_of, query_of};

    ghost Value = { List ℕ };

    ghost view = { λ t. t.text.now };

    ghost invariant = { λ t. (decoded t.path.now ≡ segments_of t.text.now) × (t.query.now ≡ query_of t.text.now) };
}

impl<'a> Target<'a> {
    /// The target of this text. Takes no memory.
    #[tactic(auto, unfolding(crate::specs::Path::segments_of, crate::specs::Path::query_of))]
    pub fn read(text: &'a str) -> Self
        ensures { result ≡ text.now }
    {
        let (path, query) = cut(text.as_bytes(), b'?');
        Target { text, path, query }
    }

    /// The query, which is empty where there is none. Takes no memory.
    pub fn query(&self) -> &'a [u8]
        ensures { result.now ≡ query_of self.now }
    {
        self.query
    }

    /// The segments of the path between its slashes (RFC 3986, section 3.3), decoded; none where one of them isn't UTF-8. It fails only where memory does.
    pub fn segments(&self, alloc: Global) -> Result<Option<Vec<DecodedText<'a>>>, AllocError>
        ensures { IfOk result (λ segments. MatchOption segments (¬ AllByRecursion IsUtf8 (segments_of self.now))
            (λ list. (list.items ≡ segments_of self.now) × AllByRecursion IsUtf8 (segments_of self.now))) }
    {
        read_segments(alloc, self.path)
    }
}

// The segments of a path, decoded.
fn read_segments<'a>(
    alloc: Global,
    path: &'a [u8],
) -> Result<Option<Vec<DecodedText<'a>>>, AllocError>
    ensures { IfOk result (λ segments. MatchOption segments (¬ AllByRecursion IsUtf8 (decoded path.now))
        (λ list. (list.items ≡ decoded path.now) × AllByRecursion IsUtf8 (decoded path.now))) }
{
    let mut segments = Vec::new(alloc);
    for bytes in path.split(|byte| *byte == b'/') {
        match DecodedText::read(alloc, bytes)? {
            Some(segment) => segments.push(segment)?,
            None => return Ok(None),
        }
    }
    Ok(Some(segments))
}
