//! Openings of the rows of a cluster.
use crate::cluster::{close, open};
use crate::objects::{say_objects, say_path};
use crate::parts::parts_of;
use crate::place::Place;
use crate::setup::Setup;
use zot_cases::{Answer, cut};
use zot_noting::NotingStore;
use zot_outside::Parts;
use zot_rows::{RowsOpenError, UnopenedRows};

// How often an opening is tried at most.
const MOST: u64 = 1000;

/// `SETUP; OBJECTS`: that rows are opened over parts with these objects, or why not; and the objects that the parts have then.
/// The calls that fail are counted from the first one.
pub fn opening(answer: &mut Answer, given: &str) {
    let (head, list) = cut(given, "; ");
    let setup = Setup::read(answer, head);
    let parts = parts_of(answer, list, setup.place, setup.failing.as_slice());
    match open(answer.alloc(), parts, setup.dedupe, setup.moment) {
        Ok(rows) => {
            answer.say("opened");
            say_objects(answer, &close(rows));
        }
        Err(unopened) => {
            say_error(answer, &unopened.error);
            say_objects(answer, &given_back(unopened));
        }
    }
}

/// `SETUP; OBJECTS`: lets each call of a part fail in turn while rows are opened, until none fails any more. Each time the error
/// has to name the part, and the parts have to have the same objects then.
pub fn openings(answer: &mut Answer, given: &str) {
    let (head, list) = cut(given, "; ");
    let setup = Setup::read(answer, head);
    let mut objects = Answer::new(answer.alloc());
    say_objects(&mut objects, &parts_of(answer, list, Place::Nowhere, &[]));
    for number in 1..MOST {
        let parts = parts_of(answer, list, setup.place, &[number]);
        match open(answer.alloc(), parts, setup.dedupe, setup.moment) {
            Ok(_) => {
                answer.confirm(number > 1, "no call");
                answer.say("each call");
                return;
            }
            Err(unopened) => check_refused(answer, setup.place, &objects, unopened),
        }
    }
    answer.fail("no end");
}

// The error names the part, and the parts have these objects.
fn check_refused(
    answer: &mut Answer,
    place: Place,
    objects: &Answer,
    unopened: UnopenedRows<NotingStore>,
) {
    let names = match (&unopened.error, place) {
        (RowsOpenError::RowFault(number), Place::Row(row)) => *number == row,
        (RowsOpenError::ShardFault(number), Place::Shard(shard)) => *number == shard,
        _ => false,
    };
    answer.confirm(names, "another error; ");
    let mut left = Answer::new(answer.alloc());
    say_objects(&mut left, &given_back(unopened));
    answer.confirm(left.as_str() == objects.as_str(), "other objects; ");
}

// The parts that were given back.
fn given_back(unopened: UnopenedRows<NotingStore>) -> Parts<NotingStore> {
    Parts {
        rows: unopened.parts,
        shards: unopened.shards,
    }
}

// Adds why rows weren't opened.
fn say_error(answer: &mut Answer, error: &RowsOpenError) {
    answer.tell(error);
    match error {
        RowsOpenError::BadIndex { path, text } | RowsOpenError::BadMeta { path, text } => {
            answer.say(": ");
            say_path(answer, path.as_str());
            answer.say("=");
            answer.write(text.as_slice());
        }
        RowsOpenError::RowFault(number) | RowsOpenError::ShardFault(number) => {
            answer.say(": ");
            answer.tell(number);
        }
        RowsOpenError::NoMemory => {}
    }
}
