//! One repository's table.
ghost use Rattle.std.specs.Prelude.{◌≡◌, ◌≢◌, false, true};
ghost use Rattle.zot_manifests.specs.Table.{empty_table};
ghost use Rattle.zot_table.specs.Changes.{known_as};
ghost use Rattle.zot_table.specs.Tables.{fresh_table};

use crate::slot_map::SlotMap;
use std::alloc::Global;
use std::marker::Model;
use zot_manifests::Manifests;
use zot_referrers::SubjectIndex;
use zot_uploads::Uploads;

/// What is kept of a repository without bytes: whether it is known, what is kept of its blobs, its manifests and tags, and its upload sessions. Contracts see these.
#[derive(Drop)]
pub struct Repository {
    pub(crate) known: bool,
    pub(crate) blobs: SlotMap,
    pub(crate) manifests: Manifests,
    pub(crate) subjects: SubjectIndex,
    // Whether each manifest is listed under its subject. It isn't where memory ran out while a manifest was put back.
    pub(crate) listed: bool,
    // Whether no manifest is left to be read. There may be none left where it isn't said.
    pub(crate) all_read: bool,
    pub(crate) sessions: Uploads,
}

impl Model for Repository {
    ghost use Rattle.zot_table.specs.Keeping.{IsKept};
    ghost use Rattle.zot_table.specs.Tables.{RepoTable, repo_table_code};

    ghost Value = { RepoTable };

    ghost coded = { repo_table_code };

    ghost view = { λ r. record { known = r.known; slots = r.blobs; table = r.manifests; sessions = r.sessions } };

    ghost invariant = { λ r. IsKept r.blobs r.manifests r.subjects.index.sets r.listed r.all_read };
}

impl Repository {
    /// A repository that nobody has stored anything in. Takes no memory.
    pub fn new(alloc: Global) -> Self
        ensures { result ≡ fresh_table }
    {
        Repository {
            known: false,
            blobs: SlotMap::new(alloc),
            manifests: Manifests::new(alloc),
            subjects: SubjectIndex::new(alloc),
            listed: true,
            all_read: true,
            sessions: Uploads::new(alloc),
        }
    }

    /// Whether it is a fresh one: it isn't known and nothing is kept of it.
    pub fn is_fresh(&self) -> bool
        ensures fresh { result ≡ true → self.now ≡ fresh_table }
        ensures other { result ≡ false → self.now ≢ fresh_table }
    {
        if self.known {
            return false;
        }
        if !self.blobs.is_empty() {
            return false;
        }
        if !self.manifests.is_empty() {
            return false;
        }
        self.sessions.is_fresh()
    }

    /// Whether it has neither manifests nor tags. Takes no memory.
    pub fn is_bare(&self) -> bool
        ensures { result ≡ true → self.now.table ≡ empty_table }
    {
        self.manifests.is_empty()
    }

    /// Whether it is known.
    pub fn known(&self) -> bool
        ensures { result ≡ self.now.known }
    {
        self.known
    }

    /// Makes it known, or forgets that it was.
    pub fn set_known(&mut self, known: bool)
        ensures { self.new ≡ known_as known self.old }
    {
        self.known = known;
    }
}
