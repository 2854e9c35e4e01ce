//! The queries of requests.
ghost use Rattle.std.specs.Prelude.{◌≡◌, OnOk, IfOk, [], ◌∷◌, codes, option_map, string_bytes};
ghost use Rattle.std.specs.Fmt.{decimal};
ghost use Rattle.form_urlencoded.specs.Form.{extend_pairs};
ghost use Rattle.zot_digest.specs.Digest.{digest_text};
ghost use Rattle.zot_spell.specs.Wire.{form_of, mount_from, parts_of, present};

use form_urlencoded::Serializer;
use std::alloc::{AllocError, Global};
use zot_digest::{Digest, Words};
use zot_model::{Call, Mount};

/// The query of a call: its keys with their values.
pub fn form_of(alloc: Global, call: &Call) -> Result<String, AllocError>
    ensures { IfOk result (λ form. string_bytes form ≡ form_of (parts_of call.now)) }
{
    let mut form = Serializer::new(String::new(alloc));
    push_form(alloc, &mut form, call)?;
    Ok(form.finish())
}

// Adds the keys of a call with their values.
#[tactic(auto, unfolding(crate::specs::Wire::parts_of))]
fn push_form(alloc: Global, form: &mut Serializer<Global>, call: &Call) -> Result<(), AllocError>
    ensures { OnOk result (form.new ≡ record form.old {
      form = extend_pairs form.old.form (present (parts_of call.now).query);
    }) }
{
    match call {
        Call::Post { mount, digest, .. } => {
            push_mount(alloc, form, mount)?;
            push_digest(alloc, form, digest)
        }
        Call::Finish { digest, .. } => push_digest(alloc, form, &Some(*digest)),
        Call::Tags { n, last } => {
            push_number(alloc, form, n)?;
            push_words(form, "last", last)
        }
        Call::Referrers { filter, .. } => push_words(form, "artifactType", filter),
        _ => Ok(()),
    }
}

// Adds the keys of a mount, where there is one: its digest, and the repository that may have the blob, where that is named.
fn push_mount(
    alloc: Global,
    form: &mut Serializer<Global>,
    mount: &Option<Mount>,
) -> Result<(), AllocError>
    ensures { OnOk result (form.new ≡ record form.old {
      form = extend_pairs form.old.form (present ((codes "mount", option_map (λ m. digest_text m.digest) mount.now)
          ∷ (codes "from", mount_from mount.now) ∷ []));
    }) }
{
    match mount {
        Some(mount) => {
            let text = mount.digest.text(alloc)?;
            form.append_pair("mount", text.as_str())?;
            match &mount.from {
                Some(name) => form.append_pair("from", name.as_str()),
                None => Ok(()),
            }
        }
        None => Ok(()),
    }
}

// Adds a digest, where there is one.
fn push_digest(
    alloc: Global,
    form: &mut Serializer<Global>,
    digest: &Option<Digest>,
) -> Result<(), AllocError>
    ensures { OnOk result (form.new ≡ record form.old {
      form = extend_pairs form.old.form (present ((codes "digest", option_map digest_text digest.now) ∷ []));
    }) }
{
    match digest {
        Some(digest) => {
            let text = digest.text(alloc)?;
            form.append_pair("digest", text.as_str())
        }
        None => Ok(()),
    }
}

// Adds the most tags that are asked for, where there is a number.
fn push_number(
    alloc: Global,
    form: &mut Serializer<Global>,
    n: &Option<u64>,
) -> Result<(), AllocError>
    ensures { OnOk result (form.new ≡ record form.old {
      form = extend_pairs form.old.form (present ((codes "n", option_map decimal n.now) ∷ []));
    }) }
{
    match n {
        Some(n) => {
            let text = n.to_string(alloc)?;
            form.append_pair("n", text.as_str())
        }
        None => Ok(()),
    }
}

// Adds a key with a text, where there is one.
fn push_words(
    form: &mut Serializer<Global>,
    key: &str,
    words: &Option<Words>,
) -> Result<(), AllocError>
    ensures { OnOk result (form.new ≡ record form.old {
      form = extend_pairs form.old.form (present ((key.now, words.now) ∷ []));
    }) }
{
    match words {
        Some(words) => form.append_pair(key, words.as_str()),
        None => Ok(()),
    }
}
