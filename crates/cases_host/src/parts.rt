//! The parts that hosts hand out and are given back. A part in memory has one object, whose path is its name.
use std::alloc::{AllocError, Global};
use std::fs;
use zot_cases::{Answer, Case, cut, number};
use zot_fakes::MemoryStore;
use zot_host::{
    Host, MemoryHost, SystemHost, configuration, keep_parts, scratch_part, scratch_path, take_parts,
};
use zot_outside::{OpenGate, Store, read_whole};
use zot_pool::MemoryUpstream;

/// A configuration.
const CONFIG: &str =
    r#"{"storage":{"root":"data"},"cluster":{"members":["h:1"],"hashKey":"loremipsumdolors"}}"#;

/// A host in memory, of parts and upstreams in memory.
type GivenHost = MemoryHost<MemoryStore, MemoryUpstream, OpenGate>;

/// `PARTS COUNT`: what a host of so many parts, whose names are their numbers from 1, answers to so many calls for one.
pub fn parts(answer: &mut Answer, given: &str) {
    let (parts, count) = cut(given, " ");
    let Ok(mut host) = host_of(answer.alloc(), number(parts), 0) else {
        return answer.fail("out of memory");
    };
    for _ in 0..number(count) {
        answer.begin();
        match host.part(answer.alloc(), "root") {
            Ok(part) => name(answer, &part),
            Err(error) => answer.show(&error),
        }
    }
}

/// `PARTS MEMBERS`: the parts that a cluster of so many members takes from a host of so many, those of its rows and those of its shards, or the error; and those that the host has after they were given back.
pub fn cluster(answer: &mut Answer, given: &str) {
    let (parts, members) = cut(given, " ");
    let Ok(mut host) = host_of(answer.alloc(), number(parts), 0) else {
        return answer.fail("out of memory");
    };
    let members = number(members).min(8) as u32;
    match take_parts(answer.alloc(), &mut host, "root", members) {
        Ok(taken) => {
            names(answer, taken.rows.as_slice());
            answer.say("; ");
            names(answer, taken.shards.as_slice());
            keep_parts(&mut host, taken);
        }
        Err(error) => answer.show(&error),
    }
    answer.say("; ");
    names(answer, host.kept().as_slice());
}

/// `UPSTREAMS COUNT`: what a host of so many upstreams answers to so many calls for one.
pub fn upstreams(answer: &mut Answer, given: &str) {
    let (upstreams, count) = cut(given, " ");
    let alloc = answer.alloc();
    let Ok(mut host) = host_of(alloc, 0, number(upstreams)) else {
        return answer.fail("out of memory");
    };
    let Ok(config) = configuration(alloc, &mut host, "zot.json") else {
        return answer.fail("no configuration");
    };
    for _ in 0..number(count) {
        answer.begin();
        answer.show(&host.upstream(alloc, &config));
    }
}

/// `ROOT NUMBER`: where the scratch store of this number lies.
pub fn scratch(answer: &mut Answer, given: &str) {
    let (root, place) = cut(given, " ");
    answer.give(scratch_path(answer.alloc(), root, number(place)));
}

/// `NUMBER`: whether an object that is put into the system's scratch store of this number, in a new folder of the case's own, is a file there, and whether the system's part of that folder has it after the store was given back.
pub fn folder(rt: HostRuntime, case: &Case, answer: &mut Answer) {
    let alloc = answer.alloc();
    let mut host = SystemHost::new(rt);
    let Ok(scratch) = scratch_part(alloc, &mut host, case.name, number(case.given)) else {
        return answer.fail("no part");
    };
    let mut scratch = scratch;
    answer.show(&scratch.put(alloc, "a/b", b"text"));
    host.keep(scratch);
    let path = scratch_path(alloc, case.name, number(case.given));
    let path = answer.keep(path, String::new(alloc));
    answer.begin();
    match host.part(alloc, path.as_str()) {
        Ok(mut part) => match read_whole(&mut part, alloc, "a/b") {
            Ok(bytes) => answer.write(bytes.as_slice()),
            Err(error) => answer.show(&error),
        },
        Err(error) => answer.show(&error),
    }
    let removed = fs::remove_dir_all(&rt, case.name);
    answer.confirm(removed.is_ok(), "the folder stays");
}

// A host of so many parts and upstreams, with the configuration as its file `zot.json`.
fn host_of(alloc: Global, parts: u64, upstreams: u64) -> Result<GivenHost, AllocError> {
    let mut files = Vec::new(alloc);
    let path = String::from_str(alloc, "zot.json")?;
    files.push((path, Vec::from_slice(alloc, CONFIG.as_bytes())?))?;
    MemoryHost::new(
        alloc,
        files,
        named(alloc, parts)?,
        empty(alloc, upstreams)?,
        7,
        OpenGate,
    )
}

// So many parts, whose names are their numbers from 1.
fn named(alloc: Global, count: u64) -> Result<Vec<MemoryStore>, AllocError> {
    let mut parts = Vec::new(alloc);
    for place in 0..count {
        let number = place + 1;
        let mut objects = Vec::new(alloc);
        objects.push((format!(in alloc; "{number}")?, Vec::new(alloc)))?;
        parts.push(MemoryStore::new(alloc, objects, Vec::new(alloc))?)?;
    }
    Ok(parts)
}

// So many upstreams.
fn empty(alloc: Global, count: u64) -> Result<Vec<MemoryUpstream>, AllocError> {
    let mut upstreams = Vec::new(alloc);
    for _ in 0..count {
        upstreams.push(MemoryUpstream::empty())?;
    }
    Ok(upstreams)
}

// Adds the names of some parts, each with a comma after it, or `none`.
fn names(answer: &mut Answer, parts: &[MemoryStore]) {
    if parts.is_empty() {
        answer.say("none");
    }
    for part in parts {
        name(answer, part);
        answer.say(",");
    }
}

// Adds the name of a part.
fn name(answer: &mut Answer, part: &MemoryStore) {
    let alloc = answer.alloc();
    for (path, _) in answer.keep(part.list(alloc), Vec::new(alloc)) {
        answer.say(path.as_str());
    }
}
