//! The repositories of a row.
ghost use Rattle.std.specs.Prelude.{◌≡◌, ◌≢◌, IsSome, OnErr, OnOk, Some};
ghost use Rattle.std.specs.FinMap as map;
ghost use Rattle.zot_row.specs.Going.{Resumes, Starts};
ghost use Rattle.zot_repo.specs.Opening.{with_holding};
ghost use Rattle.zot_repo.specs.Rows.{SetsTable, table_at};
ghost use Rattle.zot_table.specs.Opening.{with_found};
ghost use Rattle.zot_table.specs.Tables.{fresh_table};

use std::alloc::{AllocError, Global};
use std::collections::BTreeMap;
use std::marker::Model;
use zot_contents::{Holding, PoolReply};
use zot_model::Call;
use zot_names::RepoName;
use zot_outside::Store;
use zot_row::{Stage, Turn, resume, start};
use zot_table::Repository;

/// The repositories of a row, by their names, without the bytes of their blobs. Contracts see the finite map.
#[derive(Drop)]
pub struct Repos {
    tree: BTreeMap<RepoName, Repository>,
}

impl Model for Repos {
    ghost use Rattle.zot_digest.specs.ByteMap.{map_of};
    ghost use Rattle.zot_repo.specs.Rows.{Tables, tables_code};

    ghost Value = { Tables };

    ghost coded = { tables_code };

    ghost view = { λ r. map_of r.tree.entries };
}

impl Repos {
    /// No repositories. Takes no memory.
    pub fn new(alloc: Global) -> Self
        ensures { result ≡ map.empty }
    {
        Repos {
            tree: BTreeMap::new(alloc),
        }
    }

    /// Keeps a repository of the name: a fresh one where there is none. After an `Err` all are as they were.
    pub fn keep(&mut self, alloc: Global, name: &RepoName) -> Result<(), AllocError>
        ensures kept { OnOk result (IsSome (map.get self.new name.now)) }
        ensures same { SetsTable self.old name.now (table_at self.old name.now) self.new }
        ensures err { OnErr result (self.new ≡ self.old) }
    {
        match self.tree.get(name) {
            Some(_) => Ok(()),
            None => self.set(name.copy(alloc)?, Repository::new(alloc)),
        }
    }

    /// Sets the repository of a name. After an `Err` all are as they were.
    pub fn set(&mut self, name: RepoName, repository: Repository) -> Result<(), AllocError>
        ensures ok { OnOk result (self.new ≡ map.insert self.old name repository) }
        ensures err { OnErr result (self.new ≡ self.old) }
    {
        self.tree.insert(name, repository)?;
        Ok(())
    }

    /// Lets the repository of a name go where it is a fresh one. Takes no memory.
    pub fn tidy(&mut self, name: &RepoName)
        ensures same { SetsTable self.old name.now (table_at self.old name.now) self.new }
        ensures gone { map.get self.new name.now ≢ Some fresh_table }
    {
        match self.tree.get(name) {
            Some(repository) => {
                if repository.is_fresh() {
                    self.remove(name)
                }
            }
            None => {}
        }
    }

    // Lets the repository of a name go.
    fn remove(&mut self, name: &RepoName)
        ensures { self.new ≡ map.remove self.old name.now }
    {
        let _ = self.tree.remove(name);
    }

    /// Adds a holding to the repository of its name, as a blob that arrived at the moment. Where there is none, one is kept that isn't known. It fails only where memory runs out.
    pub fn hold(&mut self, alloc: Global, holding: &Holding, moment: u64) -> Result<(), AllocError>
        ensures { OnOk result (self.new ≡ with_holding moment self.old holding.now) }
    {
        self.keep(alloc, &holding.name)?;
        self.hold_kept(holding, moment)
    }

    // Adds a holding to the repository of its name, which is kept.
    fn hold_kept(&mut self, holding: &Holding, moment: u64) -> Result<(), AllocError>
        requires { IsSome (map.get self.old holding.now.name) }
        ensures found { OnOk result (table_at self.new holding.now.name ≡ with_found moment (table_at self.old holding.now.name) holding.now.digest holding.now.size) }
        ensures sets { SetsTable self.old holding.now.name (table_at self.new holding.now.name) self.new }
        ensures kept { IsSome (map.get self.new holding.now.name) }
    {
        match self.tree.get_mut(&holding.name) {
            Some(repository) => repository.hold_found(&holding.digest, holding.size, moment),
            None => unreachable!(),
        }
    }

    /// Begins a call on the repository of a name that is kept, by `start`.
    pub fn start<S: Store>(
        &mut self,
        part: &mut S,
        alloc: Global,
        name: &RepoName,
        call: &Call,
        moment: u64,
    ) -> Turn
        requires { IsSome (map.get self.old name.now) }
        ensures turn { Starts call.now moment name.now (table_at self.old name.now) (S.objects part.old) (S.faults part.old) result (table_at self.new name.now) (S.objects part.new) (S.faults part.new) }
        ensures sets { SetsTable self.old name.now (table_at self.new name.now) self.new }
        ensures kept { IsSome (map.get self.new name.now) }
    {
        match self.tree.get_mut(name) {
            Some(repository) => start(part, alloc, name, repository, call, moment),
            None => unreachable!(),
        }
    }

    /// Goes on with a call on the repository of a name that is kept, by `resume`.
    pub fn resume<S: Store>(
        &mut self,
        part: &mut S,
        alloc: Global,
        name: &RepoName,
        stage: Stage,
        moment: u64,
        answered: PoolReply,
    ) -> Turn
        requires { IsSome (map.get self.old name.now) }
        ensures turn { Resumes stage answered moment name.now (table_at self.old name.now) (S.objects part.old) (S.faults part.old) result (table_at self.new name.now) (S.objects part.new) (S.faults part.new) }
        ensures sets { SetsTable self.old name.now (table_at self.new name.now) self.new }
        ensures kept { IsSome (map.get self.new name.now) }
    {
        match self.tree.get_mut(name) {
            Some(repository) => resume(part, alloc, name, repository, stage, moment, answered),
            None => unreachable!(),
        }
    }
}
