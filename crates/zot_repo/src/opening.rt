//! Opening a row over its part, with what is held for its repositories.
ghost use Rattle.std.specs.Prelude.{◌≡◌, Err, IfErr, IfOk, IfSome, None, OnOk};
ghost use Rattle.std.specs.FinMap as map;
ghost use Rattle.std.specs.List.{AllByRecursion};
ghost use Rattle.zot_contents.specs.Pool.{Holders};
ghost use Rattle.zot_layout.specs.Causes.{HasLayoutCause};
ghost use Rattle.zot_layout.specs.Rows.{OpensRow};
ghost use Rattle.zot_layout.specs.State.{IsIndex};
ghost use Rattle.zot_outside.specs.Objects.{Keeps};
ghost use Rattle.zot_siphash.specs.Owners.{AreMembers};
ghost use Rattle.zot_table.specs.Opening.{opened_table};
ghost use Rattle.zot_repo.specs.Opening.{AreAllOf, AreOpened, AreOwn, IsOpenedRow, with_holdings, with_opened};
ghost use Rattle.zot_repo.specs.RowGoing.{IsOwn};
ghost use Rattle.zot_repo.specs.Rows.{AgreesRow, NoneFresh, Tables, state_of};

use crate::repos::Repos;
use crate::row_config::RowConfig;
use crate::row_core::RowCore;
use crate::shard::RepoShard;
use crate::unopened_row::UnopenedRow;
use std::alloc::{AllocError, Global};
use zot_contents::Holding;
use zot_layout::{IndexState, LayoutError, open_row};
use zot_names::RepoName;
use zot_outside::Store;
use zot_table::Repository;

impl<S: Store> RowCore<S> {
    /// Opens the row with this number over its part, at a moment in seconds: its repositories are what the part holds of them, each with the blobs that are held for it, as if these arrived at the moment. The part's paths are walked once, and no object is changed. A refusal gives the part back.
    ///
    /// `BadIndex` and `BadMeta` come exactly where an object has no meaning, of the first repository that has one. `Failed` comes only where the part failed, and `NoMemory` where memory ran out.
    pub fn open(
        alloc: Global,
        row: u32,
        config: RowConfig,
        part: S,
        held: Vec<Holding>,
        moment: u64,
    ) -> Result<RowCore<S>, UnopenedRow<S>>
        requires members { AreMembers config.members }
        requires own { AreOwn (IsOwn config row) held.items }
        ensures agrees { IfOk result (λ core. (holders : Holders) → AreAllOf (IsOwn config row) holders held.items → AgreesRow (IsOwn config row) core.repos holders) }
        ensures state { IfOk result (λ core. IfSome (S.objects part) (λ told. (holders : Holders) → AreAllOf (IsOwn config row) holders held.items
            → IsOpenedRow told moment (IsOwn config row) holders (state_of core.repos holders 0))) }
        ensures tables { IfOk result (λ core. AreOpened (S.objects part) (IsOwn config row) moment held.items core.repos) }
        ensures idle { IfOk result (λ core. core.waiting ≡ None) }
        ensures names { IfOk result (λ core. NoneFresh None core.repos) }
        ensures objects { IfOk result (λ core. Keeps (S.objects part) (S.objects core.part)) }
        ensures quiet { IfOk result (λ core. S.faults core.part ≡ S.faults part) }
        ensures row { IfOk result (λ core. core.row ≡ row) }
        ensures config { IfOk result (λ core. core.config ≡ config) }
        ensures opened { IfOk result (λ core. core.opened ≡ moment) }
        ensures back { IfErr result (λ unopened. Keeps (S.objects part) (S.objects unopened.part)) }
        ensures cause { IfErr result (λ unopened. HasLayoutCause {A = Tables} (S.faults part) (S.faults unopened.part) (Err unopened.error)) }
        ensures opens { IfErr result (λ unopened. IfSome (S.objects part) (λ told. OpensRow told (IsOwn config row) moment (Err unopened.error))) }
    {
        let mut part = part;
        match open_repos(alloc, &mut part, row, &config, held.as_slice(), moment) {
            Ok(repos) => Ok(RowCore {
                row,
                config,
                opened: moment,
                part,
                repos,
                waiting: None,
            }),
            Err(error) => Err(UnopenedRow { part, error }),
        }
    }
}

impl<S: Store> RepoShard<S> {
    /// Opens the row with this number over its part, as `RowCore::open` does. No pool has answered it yet that a shard failed.
    pub fn open(
        alloc: Global,
        row: u32,
        config: RowConfig,
        part: S,
        held: Vec<Holding>,
        moment: u64,
    ) -> Result<RepoShard<S>, UnopenedRow<S>>
        requires members { AreMembers config.members }
        requires own { AreOwn (IsOwn config row) held.items }
        ensures agrees { IfOk result (λ shard. (holders : Holders) → AreAllOf (IsOwn config row) holders held.items → AgreesRow (IsOwn config row) shard.core.repos holders) }
        ensures state { IfOk result (λ shard. IfSome (S.objects part) (λ told. (holders : Holders) → AreAllOf (IsOwn config row) holders held.items
            → IsOpenedRow told moment (IsOwn config row) holders (state_of shard.core.repos holders 0))) }
        ensures tables { IfOk result (λ shard. AreOpened (S.objects part) (IsOwn config row) moment held.items shard.core.repos) }
        ensures failed { IfOk result (λ shard. shard.failed ≡ 0) }
        ensures names { IfOk result (λ shard. NoneFresh None shard.core.repos) }
        ensures objects { IfOk result (λ shard. Keeps (S.objects part) (S.objects shard.core.part)) }
        ensures quiet { IfOk result (λ shard. S.faults shard.core.part ≡ S.faults part) }
        ensures row { IfOk result (λ shard. shard.core.row ≡ row) }
        ensures config { IfOk result (λ shard. shard.core.config ≡ config) }
        ensures opened { IfOk result (λ shard. shard.core.opened ≡ moment) }
        ensures back { IfErr result (λ unopened. Keeps (S.objects part) (S.objects unopened.part)) }
        ensures cause { IfErr result (λ unopened. HasLayoutCause {A = Tables} (S.faults part) (S.faults unopened.part) (Err unopened.error)) }
        ensures opens { IfErr result (λ unopened. IfSome (S.objects part) (λ told. OpensRow told (IsOwn config row) moment (Err unopened.error))) }
    {
        match RowCore::open(alloc, row, config, part, held, moment) {
            Ok(core) => Ok(RepoShard::new(core)),
            Err(unopened) => Err(unopened),
        }
    }
}

// The repositories that the part holds, with what is held for them.
fn open_repos<S: Store>(
    alloc: Global,
    part: &mut S,
    row: u32,
    config: &RowConfig,
    held: &[Holding],
    moment: u64,
) -> Result<Repos, LayoutError>
    requires { AreMembers config.now.members }
    ensures cause { HasLayoutCause (S.faults part.old) (S.faults part.new) result }
    ensures kept { Keeps (S.objects part.old) (S.objects part.new) }
    ensures made { IfOk result (AreOpened (S.objects part.old) (IsOwn config.now row) moment held.now) }
    ensures opens { IfErr result (λ error. IfSome (S.objects part.old) (λ told. OpensRow told (IsOwn config.now row) moment (Err error))) }
{
    match open_row(alloc, part, row, config.members, &config.key, moment) {
        Ok(opened) => match repos_of(alloc, opened, held, moment) {
            Ok(repos) => Ok(repos),
            Err(_) => Err(LayoutError::NoMemory),
        },
        Err(error) => Err(error),
    }
}

// The repositories that were opened, with what is held for them.
fn repos_of(
    alloc: Global,
    opened: Vec<(RepoName, IndexState)>,
    held: &[Holding],
    moment: u64,
) -> Result<Repos, AllocError>
    requires { AllByRecursion (λ one. IsIndex one.1) opened.items }
    ensures { IfOk result (λ repos. repos ≡ with_holdings moment (with_opened map.empty opened.items) held.now) }
{
    let mut repos = Repos::new(alloc);
    keep_opened(&mut repos, alloc, opened)?;
    hold_each(&mut repos, alloc, held, moment)?;
    Ok(repos)
}

// Keeps the repositories that were opened.
fn keep_opened(
    repos: &mut Repos,
    alloc: Global,
    opened: Vec<(RepoName, IndexState)>,
) -> Result<(), AllocError>
    requires { AllByRecursion (λ one. IsIndex one.1) opened.items }
    ensures { OnOk result (repos.new ≡ with_opened repos.old opened.items) }
{
    for one in opened {
        keep_one(repos, alloc, one)?;
    }
    Ok(())
}

// Keeps a repository that was opened.
fn keep_one(repos: &mut Repos, alloc: Global, one: (RepoName, IndexState)) -> Result<(), AllocError>
    requires { IsIndex one.1 }
    ensures { OnOk result (repos.new ≡ map.insert repos.old one.0 (opened_table one.1)) }
{
    let (name, index) = one;
    let repository = Repository::open(alloc, index)?;
    repos.set(name, repository)
}

// Adds what is held, as blobs that arrived at the moment.
fn hold_each(
    repos: &mut Repos,
    alloc: Global,
    held: &[Holding],
    moment: u64,
) -> Result<(), AllocError>
    ensures { OnOk result (repos.new ≡ with_holdings moment repos.old held.now) }
{
    for holding in held {
        repos.hold(alloc, holding, moment)?;
    }
    Ok(())
}
