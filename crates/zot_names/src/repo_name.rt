//! Names of repositories.
ghost use Rattle.std.specs.Prelude.{◌≡◌, ◌↔◌, IsTrue, IfOk, OnOk};
ghost use Rattle.std.specs.String.{string_bytes};
ghost use Rattle.zot_names.specs.Name.{IsName};

use crate::components::are_components;
use crate::name_error::NameError;
use std::alloc::{AllocError, Global};
use std::marker::Model;
use zot_digest::Words;

/// The most bytes that a name may have.
const LIMIT: usize = 255;

/// The name of a repository. Contracts see the list of its bytes, by which names are ordered.
#[derive(Debug, Drop, PartialEq, Eq, PartialOrd, Ord)]
pub struct RepoName {
    text: Words,
}

impl Model for RepoName {
    ghost use Rattle.std.specs.Prelude.{ℕ, List};
    ghost use Rattle.zot_names.specs.Name.{IsName};

    ghost Value = { List ℕ };

    ghost view = { λ n. n.text };

    ghost invariant = { λ n. IsName n.text };

    ghost inverse = { λ text. record { text = text } };
}

impl RepoName {
    /// The name that a text is. `Bad` comes exactly where it is none, `NoMemory` only where memory runs out.
    pub fn read(alloc: Global, text: &str) -> Result<RepoName, NameError>
        ensures read { IfOk result (λ name. name ≡ text.now) }
        ensures named { OnOk result (IsName text.now) }
        ensures bad { (result ≡ Err NameError.Bad) ↔ (¬ IsName text.now) }
        ensures no_memory { result ≡ Err NameError.NoMemory → IsName text.now }
    {
        if !is_name(text) {
            return Err(NameError::Bad);
        }
        let string = String::from_str(alloc, text)?;
        Ok(RepoName::new(string))
    }

    /// The name that a string is, which isn't copied. `is_name` tells whether it is one.
    pub fn new(string: String) -> Self
        requires { IsName (string_bytes string) }
        ensures { result ≡ string_bytes string }
    {
        RepoName {
            text: Words::new(string),
        }
    }

    /// The text of the name.
    pub fn as_str(&self) -> &str
        ensures value { result.now ≡ self.now }
        ensures name { IsName self.now }
    {
        self.text.as_str()
    }

    /// The bytes of the name.
    pub fn as_slice(&self) -> &[u8]
        ensures value { result.now ≡ self.now }
        ensures name { IsName self.now }
    {
        self.text.as_str().as_bytes()
    }

    /// A second copy of the name. It fails only where memory runs out.
    pub fn copy(&self, alloc: Global) -> Result<RepoName, AllocError>
        ensures { IfOk result (λ copy. copy ≡ self.now) }
    {
        let text = self.text.copy(alloc)?;
        Ok(RepoName { text })
    }
}

/// Whether a text is the name of a repository. Takes no memory.
pub fn is_name(text: &str) -> bool
    ensures { IsTrue result ↔ IsName text.now }
{
    text.len() <= LIMIT && are_components(text.as_bytes())
}
