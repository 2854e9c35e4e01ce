//! A member of a cluster.
ghost use Rattle.std.specs.Prelude.{◌≡◌, ◌<◌};
ghost use Rattle.zot_member.specs.Places.{place_by};
ghost use Rattle.zot_siphash.specs.Owners.{AreMembers};

use crate::place::Place;
use zot_model::Request;
use zot_repo::RowConfig;
use zot_siphash::owner_of;

/// A member of a cluster: its number, and by which key, and of how many members, it is one.
#[derive(Clone, Copy)]
pub struct Member {
    pub(crate) config: RowConfig,
    pub(crate) number: u32,
    ghost members: { AreMembers config.members },
    ghost within: { number < config.members },
}

impl Member {
    /// The member with a number.
    pub fn new(config: RowConfig, number: u32) -> Self
        requires members { AreMembers config.members }
        requires within { number < config.members }
        ensures config { result.config ≡ config }
        ensures number { result.number ≡ number }
    {
        Member { config, number }
    }

    /// Where a request that came to this member is answered.
    pub fn place(&self, request: &Request) -> Place
        ensures { result ≡ place_by self.now.config self.now.number request.now }
    {
        let Some(name) = &request.name else {
            return Place::Base;
        };
        let owner = owner_of(&self.config.key, name.as_slice(), self.config.members);
        if owner == self.number {
            Place::Own
        } else if request.hop {
            Place::Refused
        } else {
            Place::Foreign(owner)
        }
    }
}
