//! Texts in a list.
ghost use Rattle.std.specs.Prelude.{◌≡◌, IfOk};

use std::alloc::{AllocError, Global};
use std::marker::Model;
use zot_digest::Words;

/// Texts in a list. Contracts see the list.
#[derive(Debug, Drop)]
pub struct WordsList {
    items: Vec<Words>,
}

impl Model for WordsList {
    ghost use Rattle.std.specs.Prelude.{ℕ, List};

    ghost Value = { List (List ℕ) };

    ghost view = { λ l. l.items.items };
}

impl WordsList {
    /// The texts of a vector, which is not copied.
    pub fn new(items: Vec<Words>) -> Self
        ensures { result ≡ items.items }
    {
        WordsList { items }
    }

    /// The texts.
    pub fn as_slice(&self) -> &[Words]
        ensures { result.now ≡ self.now }
    {
        self.items.as_slice()
    }

    /// A second list of the same texts. It fails only where memory runs out.
    pub fn copy(&self, alloc: Global) -> Result<WordsList, AllocError>
        ensures { IfOk result (λ copy. copy ≡ self.now) }
    {
        let items = copy_texts(alloc, self.items.as_slice())?;
        Ok(WordsList { items })
    }
}

// A second vector of these texts.
fn copy_texts(alloc: Global, texts: &[Words]) -> Result<Vec<Words>, AllocError>
    ensures { IfOk result (λ copies. copies.items ≡ texts.now) }
{
    let mut copies = Vec::with_capacity(alloc, texts.len())?;
    for text in texts {
        copies.push(text.copy(alloc)?)?;
    }
    Ok(copies)
}
