//! Policies, their patterns, and the tags that they keep.
use zot_cases::{Answer, cut, number};
use zot_digest::{Words, digest_of};
use zot_names::{RepoName, Tag};
use zot_retention::{
    Compiled, Keep, KeepList, PatternError, Policy, TagRow, WordsList, compile, compile_pattern,
    kept_tags, policy_for,
};

/// Whether the pattern before the blank finds the tag after it.
pub fn pattern(answer: &mut Answer, given: &str) {
    let alloc = answer.alloc();
    let (text, tag) = cut(given, " ");
    match compile_pattern(alloc, text) {
        Ok(pattern) => {
            let finds = answer.keep(pattern.finds(alloc, tag), false);
            answer.say(if finds { "finds" } else { "finds none" });
        }
        Err(error) => refused(answer, error),
    }
}

/// Whether the policy with these rules is built.
pub fn compiled(answer: &mut Answer, given: &str) {
    if let Some(compiled) = built(answer, given, "**") {
        answer.confirm(compiled.deletes_untagged(), "another policy");
        answer.say("built");
    }
}

/// The tags that rules keep at a moment: `MOMENT RULE .. | TAG@PUSHED ..`.
pub fn kept(answer: &mut Answer, given: &str) {
    let (moment, rest) = cut(given, " ");
    let (rules, tags) = cut(rest, "|");
    if let Some(compiled) = built(answer, rules, "**") {
        keeps(answer, &compiled, tags, number(moment));
    }
}

/// The place of the policy of a name, among policies of globs: `NAME GLOB,GLOB .. ..`. The one at place i keeps the tag `pi`
/// alone.
pub fn policy(answer: &mut Answer, given: &str) {
    let alloc = answer.alloc();
    let (name, globs) = cut(given, " ");
    let mut policies = Vec::new(alloc);
    for (place, globs) in globs.split_whitespace().enumerate() {
        let rule = match place {
            0 => "pattern=^p0$",
            1 => "pattern=^p1$",
            _ => "pattern=^p2$",
        };
        if let Some(compiled) = built(answer, rule, globs) {
            answer.keep(policies.push(compiled), ());
        }
    }
    let Ok(name) = RepoName::read(alloc, name) else {
        return answer.fail("no name");
    };
    match policy_for(policies.as_slice(), &name) {
        Some(policy) => keeps(answer, policy, "p0@0 p1@0 p2@0", 0),
        None => answer.say("none"),
    }
}

// Why a policy isn't built.
fn refused(answer: &mut Answer, error: PatternError) {
    match error {
        PatternError::Pattern(rule, place) => {
            answer.say("refused ");
            answer.tell(&rule);
            answer.say(" ");
            answer.tell(&place);
        }
        PatternError::NoMemory => answer.fail("out of memory"),
    }
}

// The tags of a list `TAG@PUSHED ..` that a policy keeps at a moment.
fn keeps(answer: &mut Answer, policy: &Compiled, tags: &str, moment: u64) {
    let alloc = answer.alloc();
    let rows = rows_of(answer, tags);
    let kept = answer.keep(
        kept_tags(alloc, policy, rows.as_slice(), moment),
        Vec::new(alloc),
    );
    if kept.is_empty() {
        answer.say("none");
    }
    let mut between = "";
    for tag in kept.as_slice() {
        answer.say(between);
        answer.say(tag.as_str());
        between = " ";
    }
}

// The built policy of these rules and globs; where it isn't built, the answer says why.
fn built(answer: &mut Answer, rules: &str, globs: &str) -> Option<Compiled> {
    let policy = policy_of(answer, rules.trim(), globs);
    match compile(answer.alloc(), &policy) {
        Ok(compiled) => Some(compiled),
        Err(error) => {
            refused(answer, error);
            None
        }
    }
}

// The policy of these globs, with commas between, and rules, with blanks between; `-` is no list of rules, `empty` a list without
// rules.
fn policy_of(answer: &mut Answer, rules: &str, globs: &str) -> Policy {
    let mut texts = Vec::new(answer.alloc());
    for glob in globs.split(',') {
        add_words(answer, &mut texts, glob);
    }
    let mut items = Vec::new(answer.alloc());
    if rules != "empty" && rules != "-" {
        for rule in rules.split_whitespace() {
            let rule = rule_of(answer, rule);
            answer.keep(items.push(rule), ());
        }
    }
    let keep = if rules == "-" {
        None
    } else {
        Some(KeepList::new(items))
    };
    Policy {
        globs: WordsList::new(texts),
        delete_untagged: true,
        keep,
    }
}

// Adds words to a list.
fn add_words(answer: &mut Answer, list: &mut Vec<Words>, text: &str) {
    let alloc = answer.alloc();
    let text = answer.keep(String::from_str(alloc, text), String::new(alloc));
    answer.keep(list.push(Words::new(text)), ());
}

// A rule: `all`, or parts with commas between.
fn rule_of(answer: &mut Answer, rule: &str) -> Keep {
    let mut keep = Keep {
        patterns: None,
        count: None,
        within: None,
    };
    let mut patterns = Vec::new(answer.alloc());
    let mut has_patterns = false;
    for part in rule.split(',') {
        let (word, text) = cut(part, "=");
        match word {
            "pattern" => add_words(answer, &mut patterns, text),
            "count" => keep.count = Some(number(text)),
            "within" => keep.within = Some(number(text)),
            _ => {}
        }
        has_patterns |= word == "pattern" || word == "no-patterns";
    }
    if has_patterns {
        keep.patterns = Some(WordsList::new(patterns));
    }
    keep
}

// The rows of a list `TAG@PUSHED ..`.
fn rows_of(answer: &mut Answer, tags: &str) -> Vec<TagRow> {
    let alloc = answer.alloc();
    let mut rows = Vec::new(alloc);
    for word in tags.split_whitespace() {
        let (name, pushed) = cut(word, "@");
        if let Ok(tag) = Tag::read(alloc, name) {
            let row = TagRow {
                tag,
                digest: digest_of(name.as_bytes()),
                pushed: number(pushed),
                pulls: 0,
                pulled: 0,
            };
            answer.keep(rows.push(row), ());
        }
    }
    rows
}
