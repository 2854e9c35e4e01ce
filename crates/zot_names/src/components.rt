//! The components of a repository's name, between its slashes.
ghost use Rattle.std.specs.Prelude.{◌≡◌, []};
ghost use Rattle.zot_names.specs.Name.{components_of};
ghost use Rattle.zot_names.specs.Reading.{is_reserved, may_all_follow, may_follow};

use crate::component::is_component;

/// Whether these bytes are components joined by slashes, none of them reserved. Takes no memory.
pub fn are_components(bytes: &[u8]) -> bool
    ensures { result ≡ may_all_follow [] (components_of bytes.now) }
{
    let mut previous = b"".as_slice();
    for part in bytes.split(|byte| *byte == b'/') {
        if !may_follow(previous, part) {
            return false;
        }
        previous = part;
    }
    true
}

// Whether a part may stand after the one before it.
fn may_follow(previous: &[u8], part: &[u8]) -> bool
    ensures { result ≡ may_follow previous.now part.now }
{
    is_component(part) && !is_reserved(previous, part)
}

// Whether a part is reserved, after the one before it.
#[tactic(auto, unfolding(crate::specs::Reading::is_reserved))]
fn is_reserved(previous: &[u8], part: &[u8]) -> bool
    ensures { result ≡ is_reserved previous.now part.now }
{
    part == b"index.json".as_slice()
        || part == b"oci-layout".as_slice()
        || previous == b"blobs".as_slice()
            && (part == b"sha256".as_slice() || part == b"sha512".as_slice())
}
