//! What the repositories of rows hold.
use crate::parts::parts_of;
use crate::place::{KEY, MEMBERS};
use crate::setup::Setup;
use zot_cases::{Answer, cut};
use zot_contents::Holding;
use zot_noting::NotingStore;
use zot_pool::Pool;
use zot_rows::held_by_rows;

/// `SETUP; OBJECTS`: what repositories hold by these objects, as `ROW NAME DIGEST SIZE`, in the order of the rows and of each
/// one's list.
pub fn held(answer: &mut Answer, given: &str) {
    let (head, list) = cut(given, "; ");
    let setup = Setup::read(answer, head);
    let parts = parts_of(answer, list, setup.place, setup.failing.as_slice());
    if parts.shards.len() != 16 {
        return answer.fail("out of memory");
    }
    match Pool::open(parts.shards, answer.alloc(), setup.dedupe) {
        Ok(pool) => say_held(answer, pool),
        Err(unopened) => answer.tell(&unopened.error),
    }
}

// Adds what the repositories of each row hold.
fn say_held(answer: &mut Answer, mut pool: Pool<NotingStore>) {
    match held_by_rows(answer.alloc(), &KEY, MEMBERS, &mut pool) {
        Ok(lists) => {
            for (row, list) in lists.iter().enumerate() {
                say_list(answer, row, list.as_slice());
            }
        }
        Err(error) => answer.tell(&error),
    }
}

// Adds what the repositories of a row hold.
fn say_list(answer: &mut Answer, row: usize, list: &[Holding]) {
    for holding in list {
        answer.begin();
        answer.tell(&row);
        answer.say(" ");
        answer.say(holding.name.as_str());
        answer.say(" ");
        answer.give(holding.digest.text(answer.alloc()));
        answer.say(" ");
        answer.tell(&holding.size);
    }
}
