//! Stores over folders of the system.
use crate::scripts::make;
use std::alloc::Global;
use std::fs;
use std::fs::Permissions;
use std::os::unix::fs::{PermissionsExt, symlink};
use zot_cases::{Answer, Case, number, word};
use zot_fakes::SteadyStore;
use zot_folder::{Disk, FolderStore};
use zot_outside::Store;

// The calls of the sequence, of which two in eight are `append`.
const CALLS: [&str; 8] = [
    "put", "append", "append", "copy", "delete", "size", "read", "next",
];

// Paths that one folder can keep side by side.
const PATHS: [&str; 8] = ["a-b", "a.b", "a/b", "a/b-", "a/c/d", "a/c/e", "a0", "b/a"];

/// The answers to a script of a store over the folder `root` in a new folder of the case's own, which two stores that take
/// turns over one root have to give too. Besides calls of the store a step may be `folder PATH`, `file PATH`, `link PATH
/// TARGET`, `rights PATH MODE`, `there PATH` or `shows PATH`, which make, change and read what lies in the case's folder
/// without the store.
pub fn folder(rt: HostRuntime, case: &Case, answer: &mut Answer) {
    let mut both = Answer::new(rt.alloc());
    run(rt, case, answer, false);
    run(rt, case, &mut both, true);
    answer.confirm(
        answer.as_str() == both.as_str(),
        " but not of two stores over one root",
    );
}

/// The same of one store alone, whose listing needn't show what another store does meanwhile.
pub fn alone(rt: HostRuntime, case: &Case, answer: &mut Answer) {
    run(rt, case, answer, false);
}

// Adds the answers to a script of a store, or of two over one root that take turns.
fn run(rt: HostRuntime, case: &Case, answer: &mut Answer, in_turns: bool) {
    let (Some(one), Some(other)) = (new_store(rt, case.name), new_store(rt, case.name)) else {
        return answer.fail("no folder");
    };
    let mut one = one;
    let mut other = other;
    let mut is_other = false;
    for step in case.given.split("; ") {
        answer.begin();
        if is_other {
            take(rt, case.name, answer, &mut other, step);
        } else {
            take(rt, case.name, answer, &mut one, step);
        }
        is_other = in_turns && !is_other;
    }
    answer.confirm(
        fs::remove_dir_all(&rt, case.name).is_ok(),
        "the folder stays",
    );
}

// Adds the answer to a step.
fn take<S: Store>(rt: HostRuntime, name: &str, answer: &mut Answer, store: &mut S, step: &str) {
    let place = format!(in rt.alloc(); "{name}/{}", word(step, 1));
    let place = place.unwrap_or(String::new(rt.alloc()));
    let place = place.as_str();
    match word(step, 0) {
        "folder" => answer.show(&fs::create_dir_all(&rt, place).is_ok()),
        "file" => answer.show(&fs::write(&rt, place, "no object").is_ok()),
        "link" => answer.show(&symlink(&rt, word(step, 2), place).is_ok()),
        "rights" => {
            let mode = u32::from_str_radix(word(step, 2), 8).unwrap_or(0);
            answer.show(&fs::set_permissions(&rt, place, Permissions::from_mode(mode)).is_ok());
        }
        "there" => answer.show(&fs::symlink_metadata(&rt, place).is_ok()),
        "shows" => answer.give(fs::read_to_string(&rt, place)),
        _ => make(answer, store, step, 2),
    }
}

/// How many calls of a sequence, as many as are given, a folder and a store in memory answer alike.
pub fn alike(rt: HostRuntime, case: &Case, answer: &mut Answer) {
    let Some(mut folder) = new_store(rt, case.name) else {
        return answer.fail("no folder");
    };
    let mut memory = SteadyStore::new(rt.alloc());
    let mut state = 1u64;
    let mut same = 0u64;
    for _ in 0..number(case.given) {
        state = state
            .wrapping_mul(6_364_136_223_846_793_005)
            .wrapping_add(1);
        if answer_alike(rt.alloc(), &mut folder, &mut memory, state >> 33) {
            same = same.saturating_add(1);
        }
    }
    answer.show(&same);
    answer.confirm(
        fs::remove_dir_all(&rt, case.name).is_ok(),
        "the folder stays",
    );
}

// Whether two stores answer the call of a number alike.
fn answer_alike<S: Store, T: Store>(alloc: Global, one: &mut S, other: &mut T, n: u64) -> bool {
    let call = CALLS[(n % 8) as usize];
    let path = PATHS[(n / 8 % 8) as usize];
    let more = PATHS[(n / 64 % 8) as usize];
    let Ok(step) = format!(in alloc; "{call} {path} {more}") else {
        return false;
    };
    let mut first = Answer::new(alloc);
    make(&mut first, one, step.as_str(), n / 64 % 16);
    let mut second = Answer::new(alloc);
    make(&mut second, other, step.as_str(), n / 64 % 16);
    first.as_str() == second.as_str()
}

// A store over the folder `root` in a new folder of this name.
fn new_store(rt: HostRuntime, name: &str) -> Option<FolderStore<Disk<HostRuntime>>> {
    if fs::exists(&rt, name).ok()? {
        fs::remove_dir_all(&rt, name).ok()?;
    }
    fs::create_dir_all(&rt, name).ok()?;
    let root = format!(in rt.alloc(); "{name}/root").ok()?;
    FolderStore::new(rt, rt.alloc(), root.as_str()).ok()
}
