//! GET of the tags, and of the referrers of a digest.
ghost use Rattle.std.specs.Prelude.{◌≡◌, IfOk, ℕ, List, option_map};
ghost use Rattle.zot_model.specs.declared.call.Call.TheVariants as calls;
ghost use Rattle.zot_row.specs.Going.{GoesOnReading, Quietly};
ghost use Rattle.zot_row.specs.declared.stage.Learning.TheVariants as learning;
ghost use Rattle.zot_row.specs.declared.turn.Turn.TheVariants as turns;
ghost use Rattle.zot_table.specs.Standing.{AllRead};

use crate::reading::read_next;
use crate::stage::Learning;
use crate::turn::Turn;
use std::alloc::{AllocError, Global};
use zot_digest::{Bytes, Digest, Words};
use zot_model::Reply;
use zot_names::RepoName;
use zot_table::Repository;

/// The reply to a GET of the list of tags: a page of it.
pub fn list_tags(alloc: Global, repo: &Repository, n: Option<u64>, last: &Option<Words>) -> Reply
    ensures { (moment : ℕ) (name : List ℕ) → Quietly (calls.Tags n last.now) moment name repo.now (turns.Done result) repo.now }
{
    if !repo.known() {
        return Reply::name_unknown();
    }
    match repo.page(alloc, n, text_of(last)) {
        Ok(page) => Reply::Tags {
            tags: page.tags,
            next: page.next,
            n: n.unwrap_or(0),
        },
        Err(_) => Reply::no_memory(),
    }
}

/// A GET of the referrers of a digest has to know what all manifests say.
pub fn list_referrers(
    alloc: Global,
    name: &RepoName,
    repo: &mut Repository,
    digest: &Digest,
    filter: &Option<Words>,
) -> Turn
    ensures { (moment : ℕ) → Quietly (calls.Referrers digest.now filter.now) moment name.now repo.old result repo.new }
{
    let Ok(filter) = copy_words(alloc, filter) else {
        return Turn::Done(Reply::no_memory());
    };
    match repo.unread(alloc) {
        Ok(left) => read_next(
            alloc,
            name,
            repo,
            left,
            Learning::List {
                digest: *digest,
                filter,
            },
        ),
        Err(_) => Turn::Done(Reply::no_memory()),
    }
}

/// The reply to a GET of the referrers of a digest where all manifests are read: their list, of those alone of an artifact type where one is given.
pub fn list_read(alloc: Global, repo: &Repository, digest: &Digest, filter: &Option<Words>) -> Reply
    ensures { (name : List ℕ) → GoesOnReading (learning.List digest.now filter.now) (AllRead repo.now) 2 name repo.now (turns.Done result) }
{
    match repo.referrers(alloc, digest, text_of(filter)) {
        Ok(text) => Reply::Referrers {
            text: Bytes::new(text.into_bytes()),
            filtered: filter.is_some(),
        },
        Err(_) => Reply::no_memory(),
    }
}

// The text of words that may be missing.
fn text_of(words: &Option<Words>) -> Option<&str>
    ensures { option_map (λ text. text.now) result ≡ words.now }
{
    match words {
        Some(words) => Some(words.as_str()),
        None => None,
    }
}

// A copy of words that may be missing. It fails only where memory runs out.
fn copy_words(alloc: Global, words: &Option<Words>) -> Result<Option<Words>, AllocError>
    ensures { IfOk result (λ copy. copy ≡ words.now) }
{
    match words {
        Some(words) => Ok(Some(words.copy(alloc)?)),
        None => Ok(None),
    }
}
