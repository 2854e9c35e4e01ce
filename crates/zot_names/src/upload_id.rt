//! Ids of uploads.
ghost use Rattle.std.specs.Prelude.{◌≡◌, ℕ, ◌<◌, ◌^◌, IfOk, IfSome};
ghost use Rattle.std.specs.String.{string_bytes};
ghost use Rattle.zot_names.specs.Upload.{upload_text};

use hex::FromHex;
use std::alloc::{AllocError, Global};
use std::marker::Model;

/// The id of an upload. Contracts see its number.
#[derive(Clone, Copy, Debug, PartialEq, Eq, PartialOrd, Ord)]
pub struct UploadId {
    number: u64,
}

impl Model for UploadId {
    ghost use Rattle.std.specs.Prelude.{ℕ};

    ghost Value = { ℕ };

    ghost view = { λ id. id.number };

    ghost inverse = { λ number. record { number = number } };
}

impl UploadId {
    /// The id of this number.
    pub fn new(number: u64) -> Self
        ensures { result ≡ number }
    {
        UploadId { number }
    }

    /// The number.
    pub fn number(self) -> u64
        ensures { result ≡ self }
    {
        self.number
    }

    /// The id whose text this is, or none where it is no id's. Takes no memory.
    pub fn read(text: &str) -> Option<UploadId>
        ensures read { IfSome result (λ id. text.now ≡ upload_text id) }
        ensures every { (id : ℕ) → id < 2 ^ 64 → text.now ≡ upload_text id → result ≡ Some id }
    {
        let Ok(bytes) = <[u8; 8] as FromHex>::from_hex(text) else {
            return None;
        };
        let id = UploadId::new(u64::from_be_bytes(bytes));
        // Upper-case digits are read too, and aren't written.
        (id.digits().as_slice() == text.as_bytes()).then_some(id)
    }

    /// The text: 16 lower-case hexadecimal digits. It fails only where memory runs out.
    #[tactic(auto, unfolding(crate::specs::Upload::upload_text))]
    pub fn text(&self, alloc: Global) -> Result<String, AllocError>
        ensures { IfOk result (λ text. string_bytes text ≡ upload_text self.now) }
    {
        hex::encode(alloc, self.number.to_be_bytes())
    }

    // The text's digits.
    #[tactic(auto, unfolding(crate::specs::Upload::upload_text))]
    fn digits(self) -> [u8; 16]
        ensures { result ≡ upload_text self }
    {
        let mut digits = [0; 16];
        let _ = hex::encode_to_slice(self.number.to_be_bytes(), &mut digits);
        digits
    }
}
