//! What pages of tags say.
ghost use Rattle.std.specs.Prelude.{◌≡◌, ◌<◌, [], ◌∷◌, ℕ, Bool, List, length, Some, None, true, false, IfOk, IfSome, MatchOption};
ghost use Rattle.std.specs.List.{AllByRecursion, AllPass};
ghost use Rattle.zot_model.specs.Values.{IsWord};
ghost use Rattle.zot_names.specs.Name.{is_name_byte};
ghost use Rattle.zot_names.specs.Tag.{IsTag};
ghost use Rattle.zot_reply.specs.Pages.{link_rest, tags_text};
ghost use Rattle.zot_spell.specs.Bodies.{page_body};
ghost use Rattle.zot_spell.specs.Fields.{link_text};

use crate::cutting::{after_first, number_of, skip, skip_text, text_of, up_to};
use std::alloc::{AllocError, Global};
use zot_names::{NameError, Tag, TagList};
use zot_spell::cut;

/// How many bytes stand before the name in a link, between the name and the number, and between that, after its `&`, and the tag.
const BEFORE_NAME: usize = 5;

const BEFORE_NUMBER: usize = 13;

const BEFORE_TAG: usize = 5;

/// How many bytes stand before the name in a page, and between the name and the tags.
const BEFORE_PAGE_NAME: usize = 9;

const BEFORE_TAGS: usize = 10;

/// The most tags that the link to the next page asks for.
pub fn link_number(name: &str, link: &[u8]) -> u64
    ensures { (n : ℕ) (tag : List ℕ) → IsWord n → link.now ≡ link_text name.now n tag → n ≡ result }
{
    number_of(up_to(from_number(name, link), b'&'))
}

/// The tag after which the next page begins.
pub fn link_tag(alloc: Global, name: &str, link: &[u8]) -> Result<Option<Tag>, AllocError>
    ensures { IfOk result (λ found. (n : ℕ) (tag : List ℕ) → IsTag tag → link.now ≡ link_text name.now n tag → found ≡ Some tag) }
{
    let from_tag = skip(after_first(from_number(name, link), b'&'), BEFORE_TAG);
    tag_of(alloc, up_to(from_tag, b'>'))
}

// A link from its number on.
fn from_number<'a>(name: &str, link: &'a [u8]) -> &'a [u8]
    ensures { (n : ℕ) (tag : List ℕ) → link.now ≡ link_text name.now n tag → result.now ≡ link_rest n tag }
{
    skip_text(link, BEFORE_NAME, name, BEFORE_NUMBER)
}

// The tag that these bytes are.
fn tag_of(alloc: Global, text: &[u8]) -> Result<Option<Tag>, AllocError>
    ensures { IfOk result (λ found. (tag : List ℕ) → IsTag tag → text.now ≡ tag → found ≡ Some tag) }
{
    match Tag::read(alloc, text_of(text)) {
        Ok(tag) => Ok(Some(tag)),
        Err(NameError::Bad) => Ok(None),
        Err(NameError::NoMemory) => Err(AllocError),
    }
}

/// The tags of a page of the repository of this name.
pub fn tags_of(alloc: Global, name: &str, body: &[u8]) -> Result<TagList, AllocError>
    requires { AllPass is_name_byte name.now }
    ensures { IfOk result (λ found. (tags : List (List ℕ)) → AllByRecursion IsTag tags → body.now ≡ page_body name.now tags → tags ≡ found) }
{
    let tags = tags_in(alloc, skip_text(body, BEFORE_PAGE_NAME, name, BEFORE_TAGS))?;
    Ok(TagList::new(tags))
}

// The tags whose texts these are, through the end of their page.
fn tags_in(alloc: Global, bytes: &[u8]) -> Result<Vec<Tag>, AllocError>
    ensures { IfOk result (λ found. (tags : List (List ℕ)) → AllByRecursion IsTag tags → bytes.now ≡ tags_text false tags → found.items ≡ tags) }
{
    let mut tags = Vec::new(alloc);
    let mut left = bytes;
    while let Some((tag, rest)) = next_tag(alloc, left)? {
        tags.push(tag)?;
        left = rest;
    }
    Ok(tags)
}

// The first of the tags whose texts these are, and what stands after it.
fn next_tag(alloc: Global, bytes: &[u8]) -> Result<Option<(Tag, &[u8])>, AllocError>
    ensures first { IfOk result (λ found. (later : Bool) (tag : List ℕ) (tags : List (List ℕ)) → IsTag tag
        → bytes.now ≡ tags_text later (tag ∷ tags) → MatchOption found ⊥ (λ f. (f.0 ≡ tag) × (f.1.now ≡ tags_text true tags))) }
    ensures last { IfOk result (λ found. bytes.now ≡ tags_text false [] → found ≡ None) }
    ensures shorter { IfOk result (λ found. IfSome found (λ f. length f.1.now < length bytes.now)) }
{
    let Some((_, text)) = cut(bytes, b'"') else {
        return Ok(None);
    };
    let Some((tag, rest)) = cut(text, b'"') else {
        return Ok(None);
    };
    match tag_of(alloc, tag)? {
        Some(tag) => Ok(Some((tag, rest))),
        None => Ok(None),
    }
}
