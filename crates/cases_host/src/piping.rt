//! Runs of `pipe` at a member of a cluster, over hosts in memory and the system. Between two runs a host's parts are those that it was given back.
use std::alloc::{AllocError, Global};
use std::fs;
use zot_cases::{Answer, Case, cut, number};
use zot_commands::run_waiting;
use zot_fakes::{MemorySink, MemorySource, MemoryStore};
use zot_host::{Host, MemoryHost, SystemHost};
use zot_outside::OpenGate;
use zot_pool::MemoryUpstream;

/// A configuration of two members.
const TWO: &str =
    r#"{"storage":{"root":"data"},"cluster":{"members":["h:1","h:2"],"hashKey":"loremipsumdolors"}}"#;

/// How many parts a cluster of two members has, of which 16 are rows' parts and 16 those of shards.
const PARTS: u64 = 32;

/// A host in memory, of parts and upstreams in memory.
type GivenHost = MemoryHost<MemoryStore, MemoryUpstream, OpenGate>;

/// An object of each part: its path and its bytes.
#[derive(Drop)]
struct Object {
    path: String,
    bytes: Vec<u8>,
}

/// `RUN & RUN ..`, each a member and an input: what each run of `pipe` does at that member, over the parts that the run before it kept, and how many of them there are.
pub fn runs(answer: &mut Answer, given: &str) {
    let alloc = answer.alloc();
    let Ok(stores) = stores(alloc, PARTS, &[]) else {
        return answer.fail("out of memory");
    };
    let mut parts = stores;
    for run in given.split(" & ") {
        let (member, input) = cut(run, " ");
        answer.begin();
        parts = run_at(answer, parts, member, input);
    }
}

/// `PATH TEXT & RUN`: what a run does over parts that all have an object with this text at the path, and how many of them it kept.
pub fn with_object(answer: &mut Answer, given: &str) {
    let alloc = answer.alloc();
    let (object, run) = cut(given, " & ");
    let (path, text) = cut(object, " ");
    let bytes = answer.bytes_of(text);
    let Ok(path) = String::from_str(alloc, path) else {
        return answer.fail("out of memory");
    };
    let (member, input) = cut(run, " ");
    match stores(alloc, PARTS, &[Object { path, bytes }]) {
        Ok(parts) => {
            run_at(answer, parts, member, input);
        }
        Err(_) => answer.fail("out of memory"),
    }
}

/// `PART RUN & RUN`: what the second run does over the parts that the first one kept, where the first call of the part with this number fails, the second one, and so on, up to the first one that makes no difference; how often in a row it is the same.
pub fn failing(answer: &mut Answer, given: &str) {
    let alloc = answer.alloc();
    let (part, runs) = cut(given, " ");
    let (first, second) = cut(runs, " & ");
    let (member, input) = cut(first, " ");
    let Ok(fresh) = stores(alloc, PARTS, &[]) else {
        return answer.fail("out of memory");
    };
    let kept = run_at(&mut Answer::new(alloc), fresh, member, input);
    let steady = run_failing(alloc, kept.as_slice(), PARTS, 1, second);
    let mut same = String::new(alloc);
    let mut times = 0_u64;
    for call in 1..1000 {
        let ran = run_failing(alloc, kept.as_slice(), number(part), call, second);
        if times > 0 && ran.as_str() != same.as_str() {
            counted(answer, times, same.as_str());
            times = 0;
        }
        if ran.as_str() == steady.as_str() {
            return;
        }
        times = times.saturating_add(1);
        same = ran;
    }
}

// Adds what was the same so often.
fn counted(answer: &mut Answer, times: u64, same: &str) {
    answer.begin();
    answer.tell(&times);
    answer.say(" times ");
    answer.say(same);
}

// What a run does over copies of these parts, where this call of the part with this number fails.
fn run_failing(alloc: Global, parts: &[MemoryStore], part: u64, call: u64, run: &str) -> String {
    let mut ran = Answer::new(alloc);
    let (member, input) = cut(run, " ");
    match with_failing(alloc, parts, part, call) {
        Ok(parts) => {
            run_at(&mut ran, parts, member, input);
        }
        Err(_) => ran.fail("out of memory"),
    }
    ran.into_text()
}

// Copies of these parts, of which this call of the one with this number fails.
fn with_failing(
    alloc: Global,
    parts: &[MemoryStore],
    part: u64,
    call: u64,
) -> Result<Vec<MemoryStore>, AllocError> {
    let mut copies = Vec::new(alloc);
    for (place, one) in parts.iter().enumerate() {
        let failing = if place as u64 == part {
            Vec::from_slice(alloc, &[call])?
        } else {
            Vec::new(alloc)
        };
        copies.push(MemoryStore::new(alloc, one.list(alloc)?, failing)?)?;
    }
    Ok(copies)
}

/// `PARTS UPSTREAMS WORD,WORD,.. INPUT`: what the program does for these words, over a host that has so many parts and upstreams, whose file `zot.json` is the configuration of two members, and whose file `short.json` is refused; and how many parts it kept.
pub fn hosts(answer: &mut Answer, given: &str) {
    let alloc = answer.alloc();
    let (parts, rest) = cut(given, " ");
    let (upstreams, rest) = cut(rest, " ");
    let (words, input) = cut(rest, " ");
    match stores(alloc, number(parts), &[]) {
        Ok(parts) => {
            run_words(answer, parts, number(upstreams), words, input);
        }
        Err(_) => answer.fail("out of memory"),
    }
}

/// `RUN & RUN ..`: what each run does over the system, in whose file `two.json` is a configuration of two members over the folder `of-two`, which is removed at the end.
pub fn folders(rt: HostRuntime, case: &Case, answer: &mut Answer) {
    let alloc = answer.alloc();
    for run in case.given.split(" & ") {
        let (member, input) = cut(run, " ");
        answer.begin();
        let mut host = SystemHost::new(rt);
        match words_of(alloc, "two.json", member) {
            Ok(words) => run_over(answer, words.as_slice(), &mut host, input),
            Err(_) => answer.fail("out of memory"),
        }
    }
    let removed = fs::remove_dir_all(&rt, "of-two");
    answer.confirm(removed.is_ok(), "the folder stays");
}

// What a run at a member does over these parts, and those that it kept.
fn run_at(
    answer: &mut Answer,
    parts: Vec<MemoryStore>,
    member: &str,
    input: &str,
) -> Vec<MemoryStore> {
    let alloc = answer.alloc();
    match format!(in alloc; "pipe,zot.json,{member},") {
        Ok(words) => run_words(answer, parts, 1, words.as_str(), input),
        Err(_) => {
            answer.fail("out of memory");
            Vec::new(alloc)
        }
    }
}

// What these words do over a host of these parts and a scratch store behind them, and the parts that it kept.
fn run_words(
    answer: &mut Answer,
    parts: Vec<MemoryStore>,
    upstreams: u64,
    words: &str,
    input: &str,
) -> Vec<MemoryStore> {
    let alloc = answer.alloc();
    let Ok(mut host) = host_of(alloc, parts, upstreams) else {
        answer.fail("out of memory");
        return Vec::new(alloc);
    };
    match split(alloc, words) {
        Ok(words) => run_over(answer, words.as_slice(), &mut host, input),
        Err(_) => answer.fail("out of memory"),
    }
    let kept = host.kept();
    answer.say(" kept ");
    answer.tell(&kept.len());
    kept
}

// What these words do over a host, as cases write it: `STATUS [NOTE]OUTPUT`.
fn run_over<H: Host>(answer: &mut Answer, words: &[String], host: &mut H, input: &str) {
    let alloc = answer.alloc();
    let input = answer.read(input);
    let mut source = MemorySource::new(input, 4096, Vec::new(alloc));
    let mut sink = MemorySink::new(alloc, Vec::new(alloc));
    let mut notes = MemorySink::new(alloc, Vec::new(alloc));
    let status = run_waiting(alloc, words, host, &mut source, &mut sink, &mut notes);
    answer.show(&status.code);
    answer.say(" [");
    answer.write(notes.written());
    answer.say("]");
    answer.write(sink.written());
}

// So many parts without objects but these.
fn stores(alloc: Global, count: u64, objects: &[Object]) -> Result<Vec<MemoryStore>, AllocError> {
    let mut parts = Vec::new(alloc);
    for _ in 0..count {
        let given = copied(alloc, objects)?;
        parts.push(MemoryStore::new(alloc, given, Vec::new(alloc))?)?;
    }
    Ok(parts)
}

// A copy of some objects.
fn copied(alloc: Global, objects: &[Object]) -> Result<Vec<(String, Vec<u8>)>, AllocError> {
    let mut copies = Vec::new(alloc);
    for object in objects {
        let path = String::from_str(alloc, object.path.as_str())?;
        let bytes = Vec::from_slice(alloc, object.bytes.as_slice())?;
        copies.push((path, bytes))?;
    }
    Ok(copies)
}

// A host of these parts, with a scratch store behind all parts of a cluster, and of so many upstreams.
fn host_of(
    alloc: Global,
    parts: Vec<MemoryStore>,
    upstreams: u64,
) -> Result<GivenHost, AllocError> {
    let mut parts = parts;
    if parts.len() as u64 == PARTS {
        parts.push(MemoryStore::new(alloc, Vec::new(alloc), Vec::new(alloc))?)?;
    }
    let mut from = Vec::new(alloc);
    for _ in 0..upstreams {
        from.push(MemoryUpstream::empty())?;
    }
    let mut files = Vec::new(alloc);
    files.push((
        String::from_str(alloc, "zot.json")?,
        Vec::from_slice(alloc, TWO.as_bytes())?,
    ))?;
    files.push((
        String::from_str(alloc, "short.json")?,
        Vec::from_slice(alloc, b"{}")?,
    ))?;
    MemoryHost::new(alloc, files, parts, from, 7, OpenGate)
}

// The words of `pipe` for a file and a member.
fn words_of(alloc: Global, path: &str, member: &str) -> Result<Vec<String>, AllocError> {
    let words = format!(in alloc; "pipe,{path},{member},")?;
    split(alloc, words.as_str())
}

// The words of a text, each with a comma after it.
fn split(alloc: Global, text: &str) -> Result<Vec<String>, AllocError> {
    let mut words = Vec::new(alloc);
    for word in text.split_terminator(',') {
        words.push(String::from_str(alloc, word)?)?;
    }
    Ok(words)
}
