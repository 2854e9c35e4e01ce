//! Policies and tags as cases write them.
use zot_cases::{Answer, cut, number};
use zot_digest::{Words, digest_of};
use zot_names::Tag;
use zot_retention::{Compiled, Keep, KeepList, Policy, TagRow, WordsList, compile};

/// The built policy of these rules, with blanks between; `-` is no list of rules, `empty` a list without rules.
pub fn built(answer: &mut Answer, rules: &str, delete_untagged: bool) -> Option<Compiled> {
    let alloc = answer.alloc();
    let keep = match rules {
        "-" => None,
        "empty" => Some(KeepList::new(Vec::new(alloc))),
        _ => Some(rules_of(answer, rules)),
    };
    let policy = Policy {
        globs: WordsList::new(Vec::new(alloc)),
        delete_untagged,
        keep,
    };
    let Ok(built) = compile(alloc, &policy) else {
        answer.fail("no policy");
        return None;
    };
    Some(built)
}

// The rules of a list, with blanks between.
fn rules_of(answer: &mut Answer, rules: &str) -> KeepList {
    let mut items = Vec::new(answer.alloc());
    for rule in rules.split_whitespace() {
        let rule = rule_of(answer, rule);
        answer.keep(items.push(rule), ());
    }
    KeepList::new(items)
}

// A rule: parts with commas between, a pattern and a count.
fn rule_of(answer: &mut Answer, rule: &str) -> Keep {
    let mut keep = Keep {
        patterns: None,
        count: None,
        within: None,
    };
    for part in rule.split(',') {
        let (word, text) = cut(part, "=");
        match word {
            "pattern" => keep.patterns = Some(pattern(answer, text)),
            "count" => keep.count = Some(number(text)),
            _ => {}
        }
    }
    keep
}

// A list of one pattern.
fn pattern(answer: &mut Answer, text: &str) -> WordsList {
    let alloc = answer.alloc();
    let text = answer.keep(String::from_str(alloc, text), String::new(alloc));
    let mut patterns = Vec::new(alloc);
    answer.keep(patterns.push(Words::new(text)), ());
    WordsList::new(patterns)
}

/// The tags of a list `TAG=NAME@PUSHED ..`; the digest is that of the name.
pub fn tags(answer: &mut Answer, list: &str) -> Vec<TagRow> {
    let mut rows = Vec::new(answer.alloc());
    for word in list.split_whitespace() {
        let (named, pushed) = cut(word, "@");
        let (text, name) = cut(named, "=");
        add_tag(answer, &mut rows, text, name.as_bytes(), number(pushed));
    }
    rows
}

/// Adds a tag; the digest is that of the bytes.
pub fn add_tag(answer: &mut Answer, rows: &mut Vec<TagRow>, text: &str, bytes: &[u8], pushed: u64) {
    let Ok(tag) = Tag::read(answer.alloc(), text) else {
        return answer.fail("no tag");
    };
    let row = TagRow {
        tag,
        digest: digest_of(bytes),
        pushed,
        pulls: 0,
        pulled: 0,
    };
    answer.keep(rows.push(row), ());
}
