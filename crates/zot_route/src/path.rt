//! The form of a path, and the name in it.
ghost use Rattle.std.specs.Prelude.{◌≡◌, ◌≢◌, ℕ, List, [], ◌∷◌, MatchOption, codes, reverse};
ghost use Rattle.zot_route.specs.Path.{IsPath};
ghost use Rattle.zot_route.specs.Ending.{Read, ends_in_three as ends_in_three_of, ends_in_two as ends_in_two_of, or_three, read_back};
ghost use Rattle.zot_route.specs.declared.form.Form.{Form as AForm};

use crate::decoded_text::DecodedText;
use crate::form::Form;
use std::marker::Model;

/// The form of a path, the segments of the name in it, and the text of its last segment. Contracts see the three.
#[derive(Drop)]
pub struct Path<'a> {
    form: Form,
    name: &'a [DecodedText<'a>],
    text: &'a str,
}

impl<'a> Model for Path<'a> {
    ghost use Rattle.zot_route.specs.Ending.{Read};

    ghost Value = { Read };

    ghost view = { λ p. (p.form, p.name.now, p.text.now) };
}

impl<'a> Path<'a> {
    // A path of that form.
    fn new(form: Form, name: &'a [DecodedText<'a>], text: &'a str) -> Self
        ensures { result ≡ (form, name.now, text.now) }
    {
        Path { form, name, text }
    }

    /// The form.
    pub fn form(&self) -> Form
        ensures { result ≡ self.now.0 }
    {
        self.form
    }

    /// The segments of the name.
    pub fn name(&self) -> &'a [DecodedText<'a>]
        ensures { result.now ≡ self.now.1 }
    {
        self.name
    }

    /// The text of the last segment: a digest, a reference or an upload's id, as it stands; empty in the other forms.
    pub fn text(&self) -> &'a str
        ensures { result.now ≡ self.now.2 }
    {
        self.text
    }

    /// The path of these segments, or none where they have no form. Takes no memory.
    pub fn read(segments: &'a [DecodedText<'a>]) -> Option<Path<'a>>
        ensures { MatchOption result ((form : AForm) (name : List (List ℕ)) (text : List ℕ) → ¬ IsPath segments.now form name text)
            (λ path. IsPath segments.now path.0 path.1 path.2) }
    {
        let Some(after) = after_version(segments) else {
            return None;
        };
        read_after_version(after)
    }
}

// The segments after `/v2/`.
fn after_version<'a>(segments: &'a [DecodedText<'a>]) -> Option<&'a [DecodedText<'a>]>
    ensures { MatchOption result ((after : List (List ℕ)) → segments.now ≢ [] ∷ codes "v2" ∷ after)
        (λ after. segments.now ≡ [] ∷ codes "v2" ∷ after.now) }
{
    let Some((root, more)) = segments.split_first() else {
        return None;
    };
    let Some((version, after)) = more.split_first() else {
        return None;
    };
    if root.as_str() == "" && version.as_str() == "v2" {
        Some(after)
    } else {
        None
    }
}

// The path of these segments after `/v2/`.
fn read_after_version<'a>(segments: &'a [DecodedText<'a>]) -> Option<Path<'a>>
    ensures { result ≡ read_back (reverse segments.now) }
{
    let Some((last, before)) = segments.split_last() else {
        return Some(Path::new(Form::Base, segments, ""));
    };
    match before.split_last() {
        Some((kind, name)) => read_last(name, kind.as_str(), last.as_str()),
        None if last.as_str() == "" => Some(Path::new(Form::Base, before, "")),
        None => None,
    }
}

// The path whose last two segments these are.
fn read_last<'a>(more: &'a [DecodedText<'a>], kind: &str, text: &'a str) -> Option<Path<'a>>
    ensures { result ≡ or_three (ends_in_two_of more.now kind.now text.now) (reverse more.now) kind.now text.now }
{
    match ends_in_two(more, kind, text) {
        Some(path) => Some(path),
        None => match more.split_last() {
            Some((first, name)) => ends_in_three(name, first.as_str(), kind, text),
            None => None,
        },
    }
}

// The forms whose last two segments these are, after the segments of a name.
#[tactic(auto, unfolding(crate::specs::Ending::ends_in_two))]
fn ends_in_two<'a>(name: &'a [DecodedText<'a>], kind: &str, text: &'a str) -> Option<Path<'a>>
    ensures { result ≡ ends_in_two_of name.now kind.now text.now }
{
    if kind == "manifests" {
        Some(Path::new(Form::Manifest, name, text))
    } else if kind == "referrers" {
        Some(Path::new(Form::Referrers, name, text))
    } else if kind == "blobs" {
        if text == "uploads" {
            Some(Path::new(Form::Uploads, name, ""))
        } else {
            Some(Path::new(Form::Blob, name, text))
        }
    } else if kind == "tags" && text == "list" {
        Some(Path::new(Form::Tags, name, ""))
    } else {
        None
    }
}

// The forms of an upload, whose last three segments these are.
#[tactic(auto, unfolding(crate::specs::Ending::ends_in_three))]
fn ends_in_three<'a>(
    name: &'a [DecodedText<'a>],
    kind: &str,
    middle: &str,
    text: &'a str,
) -> Option<Path<'a>>
    ensures { result ≡ ends_in_three_of name.now kind.now middle.now text.now }
{
    if kind != "blobs" || middle != "uploads" {
        None
    } else if text.is_empty() {
        Some(Path::new(Form::Uploads, name, ""))
    } else {
        Some(Path::new(Form::Upload, name, text))
    }
}
