//! A call on a row, from the repository that it is on.
ghost use Rattle.std.specs.Prelude.{◌≡◌, ◌≢◌, ℕ, IsSome, List, None, Some};
ghost use Rattle.std.specs.FinMap as map;
ghost use Rattle.zot_layout.specs.Rows.{IsOfRow};
ghost use Rattle.zot_model.specs.Refusals.{no_memory};
ghost use Rattle.zot_model.specs.declared.row.RowReply.TheVariants as answers;
ghost use Rattle.zot_repo.specs.RowGoing.{OnDone, OnPool, ResumesRow, StartsRow, next_of, waiting_of};
ghost use Rattle.zot_repo.specs.Rows.{SetsTable, table_at};
ghost use Rattle.zot_repo.specs.declared.row_next.RowNext.TheVariants as nexts;
ghost use Rattle.zot_table.specs.Tables.{fresh_table};

use crate::repos::Repos;
use crate::row_next::RowNext;
use crate::waiting::Waiting;
use std::alloc::Global;
use zot_contents::PoolReply;
use zot_model::{Reply, Request, RowReply};
use zot_names::RepoName;
use zot_outside::Store;
use zot_row::Turn;

/// Begins a request on the repository of a name, which is kept then unless it is a fresh one. Where memory runs out before it begins, nothing has changed.
pub fn begin<S: Store>(
    part: &mut S,
    repos: &mut Repos,
    waiting: &mut Option<Waiting>,
    alloc: Global,
    name: &RepoName,
    request: &Request,
    moment: u64,
) -> RowNext
    requires named { request.now.name ≡ Some name.now }
    requires idle { waiting.old ≡ None }
    ensures { (key : List ℕ) (members row : ℕ) → IsOfRow key members row name.now
        → StartsRow (IsOfRow key members row) request.now name.now moment repos.old (S.objects part.old) (S.faults part.old) result waiting.new repos.new (S.objects part.new) (S.faults part.new) }
{
    let Ok(own) = name.copy(alloc) else {
        return lacking();
    };
    match repos.keep(alloc, name) {
        Ok(()) => {
            let turn = repos.start(part, alloc, name, &request.call, moment);
            end_turn(repos, waiting, own, moment, turn)
        }
        Err(_) => lacking(),
    }
}

/// Goes on with a call that waits, whose repository is kept.
pub fn go_on<S: Store>(
    part: &mut S,
    repos: &mut Repos,
    waiting: &mut Option<Waiting>,
    alloc: Global,
    was: Waiting,
    answered: PoolReply,
) -> RowNext
    requires { IsSome (map.get repos.old was.name) }
    ensures { (key : List ℕ) (members row : ℕ) → IsOfRow key members row was.name
        → ResumesRow (IsOfRow key members row) was answered repos.old (S.objects part.old) (S.faults part.old) result waiting.new repos.new (S.objects part.new) (S.faults part.new) }
{
    let Waiting {
        name,
        stage,
        moment,
    } = was;
    let turn = repos.resume(part, alloc, &name, stage, moment, answered);
    end_turn(repos, waiting, name, moment, turn)
}

// What a turn leads to. Once the call is answered, a fresh repository goes.
fn end_turn(
    repos: &mut Repos,
    waiting: &mut Option<Waiting>,
    name: RepoName,
    moment: u64,
    turn: Turn,
) -> RowNext
    ensures next { result ≡ next_of turn }
    ensures waits { waiting.new ≡ waiting_of turn name moment }
    ensures same { SetsTable repos.old name (table_at repos.old name) repos.new }
    ensures gone { OnDone (next_of turn) (map.get repos.new name ≢ Some fresh_table) }
    ensures kept { OnPool (next_of turn) (repos.new ≡ repos.old) }
{
    match turn {
        Turn::Done(reply) => {
            repos.tidy(&name);
            *waiting = None;
            RowNext::Done(RowReply::Reply(reply))
        }
        Turn::Asks(asked, stage) => {
            *waiting = Some(Waiting {
                name,
                stage,
                moment,
            });
            RowNext::Pool(asked)
        }
    }
}

// Memory ran out.
fn lacking() -> RowNext
    ensures { result ≡ nexts.Done (answers.Reply no_memory) }
{
    RowNext::Done(RowReply::Reply(Reply::no_memory()))
}
