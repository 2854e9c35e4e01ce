//! The parts of a cluster's storage.
use zot_cases::Answer;
use zot_contents::shard_of;
use zot_digest::digest_of;
use zot_siphash::row_of;

/// How many members the clusters of the cases have.
pub const MEMBERS: u32 = 1;

/// The key under which they hash names.
pub const KEY: [u8; 16] = [0; 16];

/// A part of a cluster's storage, or none.
#[derive(Clone, Copy)]
pub enum Place {
    /// That of the row with this number.
    Row(u32),
    /// That of the shard with this number.
    Shard(u32),
    /// None.
    Nowhere,
}

impl Place {
    /// The part of the row of a repository's name where the word is `row`, that of the shard of a text's digest where it is
    /// `shard`, and else none.
    pub fn read(answer: &mut Answer, word: &str, subject: &str) -> Place {
        match word {
            "row" => Place::Row(row_of(&KEY, subject.as_bytes(), MEMBERS)),
            "shard" => {
                let bytes = answer.read(subject);
                Place::Shard(shard_of(&digest_of(bytes.as_slice())))
            }
            _ => Place::Nowhere,
        }
    }

    /// Whether it is that of the row with this number.
    pub fn is_row(self, number: usize) -> bool {
        match self {
            Place::Row(row) => row as u64 == number as u64,
            _ => false,
        }
    }

    /// Whether it is that of the shard with this number.
    pub fn is_shard(self, number: usize) -> bool {
        match self {
            Place::Shard(shard) => shard as u64 == number as u64,
            _ => false,
        }
    }
}
