//! Hashes of names, their owners and rows. The key is the bytes 0 to 15, as in the vectors of the SipHash paper.
use zot_cases::{Answer, cut, number};
use zot_siphash::{owner_of, owner_of_hash, row_of, row_of_hash, siphash24};

const KEY: [u8; 16] = [0, 1, 2, 3, 4, 5, 6, 7, 8, 9, 10, 11, 12, 13, 14, 15];

/// The hash of the bytes 0, 1, 2 and so on, as many as given.
pub fn hash(answer: &mut Answer, given: &str) {
    let mut bytes = Vec::new(answer.alloc());
    for byte in 0..given.parse::<u8>().unwrap_or(0) {
        answer.keep(bytes.push(byte), ());
    }
    answer.tell(&siphash24(&KEY, bytes.as_slice()));
}

/// The owner and the row of a hash among so many members, 1 to 8: `HASH MEMBERS`.
pub fn placed(answer: &mut Answer, given: &str) {
    let (hash, members) = cut(given, " ");
    let (hash, members) = (number(hash), members.parse::<u32>().unwrap_or(0));
    if members < 1 || 8 < members {
        return answer.fail("no number of members");
    }
    answer.tell(&owner_of_hash(hash, members));
    answer.say(" ");
    answer.tell(&row_of_hash(hash, members));
}

/// The owner and the row of a name among so many members, 1 to 8: `NAME MEMBERS`.
pub fn named(answer: &mut Answer, given: &str) {
    let (name, members) = cut(given, " ");
    let members = members.parse::<u32>().unwrap_or(0);
    if members < 1 || 8 < members {
        return answer.fail("no number of members");
    }
    answer.tell(&owner_of(&KEY, name.as_bytes(), members));
    answer.say(" ");
    answer.tell(&row_of(&KEY, name.as_bytes(), members));
}
