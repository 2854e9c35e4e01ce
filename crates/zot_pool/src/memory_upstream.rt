//! An upstream in memory.
ghost use Rattle.std.specs.Prelude.{};

use crate::opened::Opened;
use crate::resolved::Resolved;
use crate::up_error::UpError;
use crate::upstream::Upstream;
use std::alloc::Global;
use zot_contents::Permit;
use zot_media::{Kind, Reference};
use zot_names::{RepoName, Tag};

/// An upstream in memory that holds nothing, tells so, and never fails.
#[derive(Debug, Drop)]
pub struct MemoryUpstream {}

impl MemoryUpstream {
    /// The upstream that holds nothing. Takes no memory.
    pub fn empty() -> Self {
        MemoryUpstream {}
    }
}

impl Upstream for MemoryUpstream {
    ghost use Rattle.std.specs.Prelude.{Some};
    ghost use Rattle.zot_pool.specs.Upstreams.{empty_state};

    ghost told = { λ _. Some empty_state };

    ghost faults = { λ _. 0 };

    fn resolve(
        &mut self,
        _alloc: Global,
        _registry: u32,
        _name: &RepoName,
        _what: &Reference,
    ) -> Result<Resolved, UpError> {
        Ok(Resolved::Absent)
    }

    fn next_tag(
        &mut self,
        _alloc: Global,
        _registry: u32,
        _name: &RepoName,
        _after: Option<&Tag>,
    ) -> Result<Option<Tag>, UpError> {
        Ok(None)
    }

    fn open(
        &mut self,
        _alloc: Global,
        _permit: &Permit,
        _registry: u32,
        _name: &RepoName,
        _kind: Kind,
    ) -> Result<Opened, UpError> {
        Ok(Opened::Absent)
    }

    fn read(
        &mut self,
        _alloc: Global,
        _permit: &Permit,
        _buf: &mut [u8],
    ) -> Result<usize, UpError> {
        Ok(0)
    }
}
