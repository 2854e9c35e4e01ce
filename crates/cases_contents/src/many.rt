//! Many digests of a shard, under random changes, against a plain pool.
use crate::calls::{name_of, say_reply};
use crate::plain_pool::PlainPool;
use crate::pool::Pool;
use crate::random::Random;
use std::alloc::Global;
use zot_cases::{Answer, number, word};
use zot_contents::{Holding, PoolCall, PoolReply, shard_of};
use zot_digest::{Bytes, Digest, digest_of};
use zot_names::RepoName;
use zot_noting::NotingStore;

// The shard.
const NUMBER: u32 = 0;

// A digest of the shard, with the number whose text is its sound bytes.
#[derive(Clone, Copy)]
struct Subject {
    digest: Digest,
    number: u64,
}

// A shard, and a plain pool that is asked the same.
#[derive(Drop)]
struct Both {
    pool: Pool,
    plain: PlainPool,
}

/// `SEED DIGESTS CHANGES`: so many digests of a shard get one to five holders each, and are changed so often by random calls; then
/// the shard is opened anew. `same` where each answer is that of a plain pool, and all is held that it holds.
pub fn many(answer: &mut Answer, given: &str) {
    let alloc = answer.alloc();
    let mut random = Random::new(number(word(given, 0)));
    let subjects = subjects_of(answer, number(word(given, 1)));
    let Ok(store) = NotingStore::new(alloc, Vec::new(alloc), Vec::new(alloc), false) else {
        answer.fail("out of memory");
        return;
    };
    let Some(pool) = open(answer, store) else {
        return;
    };
    let mut both = Both {
        pool,
        plain: PlainPool::new(alloc),
    };
    for subject in &subjects {
        begin(answer, &mut both, &mut random, subject);
    }
    for _ in 0..number(word(given, 2)) {
        change(answer, &mut both, &mut random, subjects.as_slice());
    }
    again(answer, both);
    answer.say("same");
}

// Opens the shard over a store, with dedupe.
fn open(answer: &mut Answer, store: NotingStore) -> Option<Pool> {
    match Pool::open(store, answer.alloc(), NUMBER, true) {
        Ok(pool) => Some(pool),
        Err(unopened) => {
            answer.tell(&unopened.fault);
            answer.fail("; ");
            None
        }
    }
}

// The first digests of the shard, so many, of the texts of numbers.
fn subjects_of(answer: &mut Answer, count: u64) -> Vec<Subject> {
    let mut subjects = Vec::new(answer.alloc());
    for number in 0..u64::MAX {
        if subjects.len() as u64 >= count {
            break;
        }
        let mut text = Answer::new(answer.alloc());
        text.tell(&number);
        let digest = digest_of(text.as_str().as_bytes());
        if shard_of(&digest) == NUMBER {
            answer.keep(subjects.push(Subject { digest, number }), ());
        }
    }
    subjects
}

// Gives a digest one to five holders.
fn begin(answer: &mut Answer, both: &mut Both, random: &mut Random, subject: &Subject) {
    for holder in 0..random.below(5).saturating_add(1) {
        if let Some(name) = holder_of(answer, holder) {
            let bytes = bytes_of(answer, random, subject);
            ask(answer, both, &PoolCall::Attach(name, subject.digest, bytes));
        }
    }
}

// Makes a random call.
fn change(answer: &mut Answer, both: &mut Both, random: &mut Random, subjects: &[Subject]) {
    let place = random.below(subjects.len() as u64);
    let Some(subject) = subjects.get(place as usize) else {
        return;
    };
    let Some(name) = holder_of(answer, random.below(5)) else {
        return;
    };
    let Some(from) = holder_of(answer, random.below(5)) else {
        return;
    };
    let call = match random.below(4) {
        0 => PoolCall::Attach(name, subject.digest, bytes_of(answer, random, subject)),
        1 => PoolCall::Mount(name, from, subject.digest),
        2 => PoolCall::Read(name, subject.digest),
        _ => PoolCall::Detach(name, subject.digest),
    };
    ask(answer, both, &call);
}

// The holder of a number.
fn holder_of(answer: &mut Answer, holder: u64) -> Option<RepoName> {
    let name = match holder {
        0 => "a",
        1 => "a-b",
        2 => "a/b",
        3 => "c",
        _ => "lib/d",
    };
    name_of(answer, name)
}

// Bytes under a digest: mostly the sound ones, sometimes others, and sometimes none.
fn bytes_of(answer: &mut Answer, random: &mut Random, subject: &Subject) -> Bytes {
    let mut text = Answer::new(answer.alloc());
    match random.below(6) {
        0 => text.say("x"),
        1 => {}
        _ => text.tell(&subject.number),
    }
    Bytes::new(text.into_text().into_bytes())
}

// Asks both, whose answers have to be the same.
fn ask(answer: &mut Answer, both: &mut Both, call: &PoolCall) {
    let alloc = answer.alloc();
    let came = both.pool.ask(alloc, call);
    match both.plain.answer(alloc, call) {
        Ok(wanted) => {
            let same = text_of(alloc, &came).as_str() == text_of(alloc, &wanted).as_str();
            answer.confirm(same, "another answer; ");
        }
        Err(_) => answer.fail("out of memory; "),
    }
}

// An answer as a text.
fn text_of(alloc: Global, reply: &PoolReply) -> Answer {
    let mut text = Answer::new(alloc);
    say_reply(&mut text, reply);
    text
}

// Opens the shard anew and compares what is held.
fn again(answer: &mut Answer, both: Both) {
    let Both { pool, plain } = both;
    let Some(pool) = open(answer, pool.close()) else {
        return;
    };
    let mut both = Both { pool, plain };
    match both.pool.ask(answer.alloc(), &PoolCall::Holdings) {
        PoolReply::Held(list) => compare(answer, &mut both, list.as_slice()),
        _ => answer.fail("no list; "),
    }
}

// Compares all that is held.
fn compare(answer: &mut Answer, both: &mut Both, list: &[Holding]) {
    let alloc = answer.alloc();
    answer.check(both.plain.is_list(alloc, list), &true, "another list; ");
    for holding in list {
        match holding.name.copy(alloc) {
            Ok(name) => ask(answer, both, &PoolCall::Read(name, holding.digest)),
            Err(_) => answer.fail("out of memory; "),
        }
    }
}
