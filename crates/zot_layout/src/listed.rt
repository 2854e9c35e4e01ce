//! What a descriptor of an index says.
ghost use Rattle.std.specs.Prelude.{◌≡◌};
ghost use Rattle.zot_layout.specs.Reading.{may_stand};

use crate::moment::Moment;
use std::marker::Model;
use zot_digest::Digest;
use zot_media::Media;
use zot_names::Tag;

/// What a descriptor of an index says, with its annotations.
#[derive(Drop)]
pub struct Listed {
    /// The digest of the manifest.
    pub digest: Digest,
    /// Its media, where they are accepted.
    pub media: Option<Media>,
    /// How many bytes it has.
    pub size: u64,
    /// The tag that the descriptor names, if it names one.
    pub tag: Option<Tag>,
    /// When the manifest arrived.
    pub arrived: Moment,
    /// When the tag was pushed.
    pub pushed: Moment,
}

impl Listed {
    /// Whether its moments are missing or moments. A descriptor of other media isn't looked at.
    pub fn may_stand(&self) -> bool
        ensures { result ≡ may_stand self.now }
    {
        match self.media {
            Some(_) => self.arrived.is_moment() && self.pushed.is_moment(),
            None => true,
        }
    }
}

/// What the descriptors of an index say, in their order. Contracts see the list.
#[derive(Drop)]
pub struct ListedAll {
    items: Vec<Listed>,
}

impl Model for ListedAll {
    ghost use Rattle.std.specs.Prelude.{List};
    ghost use Rattle.zot_layout.specs.declared.listed.Listed.{Listed};

    ghost Value = { List Listed };

    ghost view = { λ l. l.items.items };
}

impl ListedAll {
    /// Those of a vector, which is not copied.
    pub fn new(items: Vec<Listed>) -> Self
        ensures { result ≡ items.items }
    {
        ListedAll { items }
    }

    /// What they say.
    pub fn as_slice(&self) -> &[Listed]
        ensures { result.now ≡ self.now }
    {
        self.items.as_slice()
    }
}
