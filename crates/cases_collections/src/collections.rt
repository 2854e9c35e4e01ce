//! What collections remove from a repository.
use crate::manifests::manifests;
use crate::policies::{built, tags};
use zot_cases::{Answer, cut, number};
use zot_collect::{RetireView, are_in_order, retire, sweepable};
use zot_digest::{Digest, digest_of};
use zot_retention::Compiled;

/// What goes: `WHICH MOMENT DELAY RULE .. | TAG=MANIFEST@PUSHED .. | MANIFEST ..`, where `WHICH` is `deletes` or `leaves` of a policy's
/// untagged manifests, or `none` without a policy. The answer is `TAG .. / MANIFEST ..`.
pub fn retired(answer: &mut Answer, given: &str) {
    let (which, rest) = cut(given, " ");
    let (moment, rest) = cut(rest, " ");
    let (delay, rest) = cut(rest, " ");
    let (rules, rest) = cut(rest, "|");
    let (tagged, listed) = cut(rest, "|");
    let state = RetireView {
        tags: tags(answer, tagged),
        manifests: manifests(answer, listed),
        blobs: Vec::new(answer.alloc()),
    };
    let policy = if which == "none" {
        None
    } else {
        built(answer, rules.trim(), which == "deletes")
    };
    goes(
        answer,
        policy.as_ref(),
        &state,
        listed,
        number(moment),
        number(delay),
    );
}

// The tags and the manifests that go under a policy, if there is one.
fn goes(
    answer: &mut Answer,
    policy: Option<&Compiled>,
    state: &RetireView,
    listed: &str,
    moment: u64,
    delay: u64,
) {
    if !are_in_order(state.manifests.as_slice()) {
        return answer.fail("manifests that aren't in order");
    }
    let Ok(retired) = retire(answer.alloc(), policy, state, moment, delay) else {
        return answer.fail("out of memory");
    };
    if retired.tags.is_empty() {
        answer.say("none");
    }
    let mut between = "";
    for tag in retired.tags.as_slice() {
        answer.say(between);
        answer.say(tag.as_str());
        between = " ";
    }
    answer.say(" / ");
    names(answer, listed, retired.manifests.as_slice());
}

/// What may be swept: `MOMENT DELAY | MANIFEST .. | BLOB@ARRIVED ..`. The answer is `BLOB ..`.
pub fn swept(answer: &mut Answer, given: &str) {
    let (moment, rest) = cut(given, " ");
    let (delay, rest) = cut(rest, "|");
    let (listed, words) = cut(rest, "|");
    let alloc = answer.alloc();
    let mut blobs = Vec::new(alloc);
    for word in words.split_whitespace() {
        let (name, arrived) = cut(word, "@");
        let blob = (digest_of(name.as_bytes()), number(arrived));
        answer.keep(blobs.push(blob), ());
    }
    let state = RetireView {
        tags: Vec::new(alloc),
        manifests: manifests(answer, listed),
        blobs,
    };
    let found = sweepable(alloc, &state, number(moment), number(delay.trim()));
    let found = answer.keep(found, Vec::new(alloc));
    names(answer, words, found.as_slice());
}

// Those of the words whose names have one of these digests, in the order of the words.
fn names(answer: &mut Answer, words: &str, digests: &[Digest]) {
    if digests.is_empty() {
        answer.say("none");
    }
    let mut is_first = true;
    for word in words.split_whitespace() {
        let (name, _) = cut(word, "@");
        if digests.contains(&digest_of(name.as_bytes())) {
            if !is_first {
                answer.say(" ");
            }
            answer.say(name);
            is_first = false;
        }
    }
}
