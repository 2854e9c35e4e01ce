//! The holders of a digest.
ghost use Rattle.std.specs.Prelude.{◌≡◌, ◌≢◌, ◌↔◌, ℕ, List, Option, Some, None, IfOk, IfSome, IsTrue, MatchOption, OnOk, OnErr, map as each, option_copied, option_map, unwrap_or};
ghost use Rattle.std.specs.FinMap as map;
ghost use Rattle.zot_links.specs.Holding.{form_in, form_of, source_of};
ghost use Rattle.zot_links.specs.Meaning.{IsFree, IsLink, Links};
ghost use Rattle.zot_links.specs.Promotion.{first_link, is_link_to, line_of_entry, promote, redirect};
ghost use Rattle.std.specs.BTreeMap.{insert_entry};
ghost use Rattle.std.specs.List.{AllByRecursion};
ghost use Rattle.std.specs.List.Sorted.{IsStrictlySortedBy};
ghost use Rattle.zot_digest.specs.ByteMap.{byte_cmp, map_of};
ghost use Rattle.zot_links.specs.Records.{AreLines, NamesRepos, line_in};
ghost use Rattle.zot_names.specs.Name.{IsName};

use crate::form::Form;
use crate::record_line::RecordLine;
use std::alloc::{AllocError, Global};
use std::collections::BTreeMap;
use std::marker::Model;
use zot_names::RepoName;

/// The holders in a tree, each with the origin of its link.
pub type Tree = BTreeMap<RepoName, Option<RepoName>>;

/// The holders of a digest, each with the origin of its link, or `None` where its object is whole. Contracts see the finite map.
#[derive(Drop)]
pub struct Links {
    tree: Tree,
}

impl Model for Links {
    ghost use Rattle.zot_digest.specs.ByteMap.{map_of};
    ghost use Rattle.zot_links.specs.Meaning.{Links, links_code};

    ghost Value = { Links };

    ghost coded = { links_code };

    ghost view = { λ l. map_of l.tree.entries };
}

impl Links {
    /// No holders. Takes no memory.
    pub fn new(alloc: Global) -> Self
        ensures { result ≡ map.empty }
    {
        Links {
            tree: BTreeMap::new(alloc),
        }
    }

    /// Whether there are no holders.
    pub fn is_empty(&self) -> bool
        ensures { IsTrue result ↔ (self.now ≡ map.empty) }
    {
        self.tree.is_empty()
    }

    /// The holder of a name: the origin of its link, or `None` where its object is whole.
    pub fn get(&self, name: &RepoName) -> Option<&Option<RepoName>>
        ensures { option_copied result ≡ map.get self.now name.now }
    {
        self.tree.get(name)
    }

    /// The repository whose object a holder stands for: its link's origin, or itself. `None` where it is no holder.
    pub fn source<'a>(&'a self, name: &'a RepoName) -> Option<&'a RepoName>
        ensures source { option_copied result ≡ source_of name.now (map.get self.now name.now) }
        ensures name { IsName name.now }
    {
        let _ = name.as_str();
        let Some(origin) = self.get(name) else {
            return None;
        };
        Some(origin_or(origin, name))
    }

    /// What a repository is among the holders.
    pub fn form(&self, name: &RepoName) -> Form
        ensures { result ≡ form_of (map.get self.now name.now) }
    {
        match self.get(name) {
            Some(origin) => form_in(origin),
            None => Form::Absent,
        }
    }

    /// The holders in a tree.
    pub fn of(tree: Tree) -> Self
        ensures { result ≡ map_of tree.entries }
    {
        Links { tree }
    }

    /// The tree of the holders.
    pub fn tree(&self) -> &Tree
        ensures { map_of result.now.entries ≡ self.now }
    {
        &self.tree
    }

    /// Sets a holder. After an `Err` the holders are as they were.
    pub fn set(&mut self, name: RepoName, origin: Option<RepoName>) -> Result<(), AllocError>
        ensures ok { OnOk result (self.new ≡ map.insert self.old name origin) }
        ensures err { OnErr result (self.new ≡ self.old) }
    {
        self.tree.insert(name, origin)?;
        Ok(())
    }

    // Removes a holder.
    fn remove(&mut self, name: &RepoName)
        ensures { self.new ≡ map.remove self.old name.now }
    {
        let _ = self.tree.remove(name);
    }

    // A second copy, in which the links to one repository are links to another.
    fn redirected(&self, alloc: Global, from: &RepoName, to: &RepoName) -> Result<Links, AllocError>
        ensures { IfOk result (λ links. (name : List ℕ) → map.get links name ≡ option_map (redirect from.now to.now) (map.get self.now name)) }
    {
        let tree = redirected(alloc, &self.tree, from, to)?;
        Ok(Links { tree })
    }

    // A second copy.
    fn copy(&self, alloc: Global) -> Result<Links, AllocError>
        ensures { IfOk result (λ links. links ≡ self.now) }
    {
        Ok(Links {
            tree: copied(alloc, &self.tree)?,
        })
    }

    /// A copy with one more holder, or another origin of one.
    pub fn with(
        &self,
        alloc: Global,
        name: &RepoName,
        origin: Option<&RepoName>,
    ) -> Result<Links, AllocError>
        ensures { IfOk result (λ links. links ≡ map.insert self.now name.now (option_copied origin.entry)) }
    {
        let mut links = self.copy(alloc)?;
        let holder = name.copy(alloc)?;
        let origin = copy_of(alloc, origin)?;
        links.set(holder, origin)?;
        Ok(links)
    }

    /// A copy without a holder.
    pub fn without(&self, alloc: Global, name: &RepoName) -> Result<Links, AllocError>
        ensures { IfOk result (λ links. links ≡ map.remove self.now name.now) }
    {
        let mut links = self.copy(alloc)?;
        links.remove(name);
        Ok(links)
    }

    /// A copy in which a link is whole, and its origin and the other links to that are links to it.
    pub fn promoted(
        &self,
        alloc: Global,
        name: &RepoName,
        least: &RepoName,
    ) -> Result<Links, AllocError>
        ensures { IfOk result (λ links. (other : List ℕ) → map.get links other ≡ promote name.now least.now other (map.get self.now other)) }
    {
        let mut links = self.redirected(alloc, name, least)?;
        let holder = name.copy(alloc)?;
        let origin = least.copy(alloc)?;
        let whole = least.copy(alloc)?;
        links.set(holder, Some(origin))?;
        links.set(whole, None)?;
        Ok(links)
    }

    /// The least link to a repository.
    pub fn least_link(&self, name: &RepoName) -> Option<&RepoName>
        ensures least { option_copied result ≡ first_link name.now (map.entries self.now) }
        ensures link { MatchOption result (IsFree self.now name.now) (λ link. IsLink self.now link.now name.now) }
    {
        first_link(&self.tree, name)
    }

    /// The lines of the holders' record.
    pub fn lines(&self, alloc: Global) -> Result<Vec<RecordLine>, AllocError>
        ensures lines { IfOk result (λ lines. AreLines lines.items) }
        ensures all { IfOk result (λ lines. (name : List ℕ) → line_in lines.items name ≡ map.get self.now name) }
    {
        lines(alloc, &self.tree)
    }
}

// The origin of a link, or the holder itself where its object is whole.
fn origin_or<'a>(origin: &'a Option<RepoName>, name: &'a RepoName) -> &'a RepoName
    ensures { result.now ≡ unwrap_or origin.now name.now }
{
    match origin {
        Some(origin) => origin,
        None => name,
    }
}

// What a holder is.
fn form_in(origin: &Option<RepoName>) -> Form
    ensures { result ≡ form_in origin.now }
{
    match origin {
        Some(_) => Form::Link,
        None => Form::Whole,
    }
}

// A second tree.
fn copied(alloc: Global, tree: &Tree) -> Result<Tree, AllocError>
    ensures { IfOk result (λ made. made.entries ≡ tree.now.entries) }
{
    let mut made = BTreeMap::new(alloc);
    for (name, origin) in tree.iter() {
        put(&mut made, name.copy(alloc)?, copy_held(alloc, origin)?)?;
    }
    Ok(made)
}

// A second tree, in which the links to one repository are links to another.
fn redirected(
    alloc: Global,
    tree: &Tree,
    from: &RepoName,
    to: &RepoName,
) -> Result<Tree, AllocError>
    ensures { IfOk result (λ made. made.entries ≡ each (λ e. (e.0, redirect from.now to.now e.1)) tree.now.entries) }
{
    let mut made = BTreeMap::new(alloc);
    for (name, origin) in tree.iter() {
        put(
            &mut made,
            name.copy(alloc)?,
            redirect(alloc, origin, from, to)?,
        )?;
    }
    Ok(made)
}

// The first link to a repository.
fn first_link<'a>(tree: &'a Tree, name: &RepoName) -> Option<&'a RepoName>
    ensures link { option_copied result ≡ first_link name.now tree.now.entries }
    ensures ordered { IsStrictlySortedBy byte_cmp (each (λ e. e.0) tree.now.entries) }
{
    for (link, origin) in tree.iter() {
        if is_to(origin, name) {
            return Some(link);
        }
    }
    None
}

// The lines of the holders in a tree.
fn lines(alloc: Global, tree: &Tree) -> Result<Vec<RecordLine>, AllocError>
    ensures lines { IfOk result (λ lines. lines.items ≡ each line_of_entry tree.now.entries) }
    ensures names { IfOk result (λ lines. AllByRecursion NamesRepos lines.items) }
    ensures ordered { OnOk result (IsStrictlySortedBy byte_cmp (each (λ e. e.0) tree.now.entries)) }
{
    let mut lines = Vec::new(alloc);
    for (name, origin) in tree.iter() {
        lines.push(line(alloc, name, origin)?)?;
    }
    Ok(lines)
}

/// Puts a holder into a tree.
pub fn put(tree: &mut Tree, name: RepoName, origin: Option<RepoName>) -> Result<(), AllocError>
    ensures { OnOk result (tree.new.entries ≡ insert_entry byte_cmp tree.old.entries name origin) }
{
    tree.insert(name, origin)?;
    Ok(())
}

// A copy of an origin.
fn copy_of(alloc: Global, origin: Option<&RepoName>) -> Result<Option<RepoName>, AllocError>
    ensures { IfOk result (λ copy. copy ≡ option_copied origin.entry) }
{
    match origin {
        Some(origin) => Ok(Some(origin.copy(alloc)?)),
        None => Ok(None),
    }
}

// A copy of what a tree has of a holder.
fn copy_held(alloc: Global, origin: &Option<RepoName>) -> Result<Option<RepoName>, AllocError>
    ensures { IfOk result (λ copy. copy ≡ origin.now) }
{
    match origin {
        Some(origin) => Ok(Some(origin.copy(alloc)?)),
        None => Ok(None),
    }
}

// A copy of an origin, which is another one where it is this one.
fn redirect(
    alloc: Global,
    origin: &Option<RepoName>,
    from: &RepoName,
    to: &RepoName,
) -> Result<Option<RepoName>, AllocError>
    ensures { IfOk result (λ made. made ≡ redirect from.now to.now origin.now) }
{
    match origin {
        Some(origin) if origin == from => Ok(Some(to.copy(alloc)?)),
        Some(origin) => Ok(Some(origin.copy(alloc)?)),
        None => Ok(None),
    }
}

// Whether a holder is a link to a repository.
fn is_to(origin: &Option<RepoName>, name: &RepoName) -> bool
    ensures { result ≡ is_link_to name.now origin.now }
{
    match origin {
        Some(origin) => origin == name,
        None => false,
    }
}

// The line of a holder.
fn line(alloc: Global, name: &RepoName, origin: &Option<RepoName>) -> Result<RecordLine, AllocError>
    ensures line { IfOk result (λ line. line ≡ line_of_entry (name.now, origin.now)) }
    ensures names { IfOk result NamesRepos }
{
    Ok(RecordLine {
        name: named(alloc, name)?,
        origin: match origin {
            Some(origin) => Some(named(alloc, origin)?),
            None => None,
        },
    })
}

/// A copy of a name.
pub fn named(alloc: Global, name: &RepoName) -> Result<RepoName, AllocError>
    ensures value { IfOk result (λ copy. copy ≡ name.now) }
    ensures named { IsName name.now }
{
    let _ = name.as_slice();
    name.copy(alloc)
}
