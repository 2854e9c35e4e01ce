//! Registries from which contents are mirrored.
ghost use Rattle.std.specs.Prelude.{◌≡◌, ◌≤◌, IfOk, IfSome, OnErr, Option, length, option_copied};
ghost use Rattle.zot_pool.specs.Faults.{HasUpCause};
ghost use Rattle.zot_pool.specs.Upstreams.{IsAfter, IsTagAfter, KeepsDigest, Opens, ReadsUp, UpTold, content_at, resolved};

use crate::opened::Opened;
use crate::resolved::Resolved;
use crate::up_error::UpError;
use std::alloc::Global;
use zot_contents::Permit;
use zot_media::{Kind, Reference};
use zot_names::{RepoName, Tag};

/// Registries by their numbers, from which contents are mirrored. Where it tells, an upstream holds for each registry and repository a map of tags, a map of manifests with their media, and a map of blobs, which no call changes; and the bytes that are left of each content that was opened, under the number of the permit's seat. A call that answers `Err` changed nothing.
pub trait Upstream {
    ghost use Rattle.std.specs.Prelude.{ℕ, Option};
    ghost use Rattle.zot_pool.specs.Upstreams.{UpState};

    // What it holds and has left, or none if it doesn't tell.
    ghost told: { Self → Option UpState };

    // How many calls have failed. The count stops at 2^64 - 1.
    ghost faults: { Self → ℕ };

    /// The manifest that a reference stands for.
    fn resolve(
        &mut self,
        alloc: Global,
        registry: u32,
        name: &RepoName,
        what: &Reference,
    ) -> Result<Resolved, UpError>
        ensures cause { HasUpCause (faults self.old) (faults self.new) result }
        ensures kept { told self.new ≡ told self.old }
        ensures ok { IfOk result (λ answer. IfSome (told self.old) (λ up. answer ≡ resolved (up.repos registry name.now) what.now)) }
        ensures digest { IfOk result (λ answer. KeepsDigest what.now answer) };

    /// The least tag that comes after a given one in byte order, or the least of all; `None` if there is none.
    fn next_tag(
        &mut self,
        alloc: Global,
        registry: u32,
        name: &RepoName,
        after: Option<&Tag>,
    ) -> Result<Option<Tag>, UpError>
        ensures cause { HasUpCause (faults self.old) (faults self.new) result }
        ensures kept { told self.new ≡ told self.old }
        ensures ok { IfOk result (λ found. IfSome (told self.old) (λ up. IsTagAfter (up.repos registry name.now) (option_copied after.entry) found)) }
        ensures above { IfOk result (λ found. IfSome found (λ tag. IsAfter (option_copied after.entry) tag)) };

    /// Opens the content of the permit's digest under the number of its seat, in place of an earlier one. Where there is none, an earlier one stays.
    fn open(
        &mut self,
        alloc: Global,
        permit: &Permit,
        registry: u32,
        name: &RepoName,
        kind: Kind,
    ) -> Result<Opened, UpError>
        ensures cause { HasUpCause (faults self.old) (faults self.new) result }
        ensures err { OnErr result (told self.new ≡ told self.old) }
        ensures ok { IfOk result (λ opened. UpTold (told self.old) (told self.new) (λ old new.
            Opens old permit.now.seat (content_at (old.repos registry name.now) kind permit.now.digest) opened new)) };

    /// Moves the first bytes that are left of the content under the permit's number into the buffer, and answers how many: where it tells, as many as are left and as the buffer has room for, and 0 where none was opened.
    fn read(&mut self, alloc: Global, permit: &Permit, buf: &mut [u8]) -> Result<usize, UpError>
        ensures cause { HasUpCause (faults self.old) (faults self.new) result }
        ensures err { OnErr result (told self.new ≡ told self.old) }
        ensures within { IfOk result (λ n. n ≤ length buf.old) }
        ensures ok { IfOk result (λ n. UpTold (told self.old) (told self.new) (λ old new. ReadsUp old permit.now.seat (length buf.old) buf.new n new)) };
}
