//! Names of repositories, tags, and globs over names.
use zot_cases::{Answer, cut};
use zot_names::{RepoName, Tag, TagList, glob_matches, is_name, is_tag};

/// The name that a text is read as, or why it isn't.
pub fn name(answer: &mut Answer, given: &str) {
    let text = answer.text_of(given);
    let read = RepoName::read(answer.alloc(), text.as_str());
    answer.confirm(
        is_name(text.as_str()) == read.is_ok(),
        "otherwise to the test",
    );
    match read {
        Ok(name) => {
            answer.check(name.copy(answer.alloc()), &name, "another copy");
            answer.confirm(name.as_slice() == text.as_str().as_bytes(), "other bytes");
            answer.say(name.as_str());
            answer.confirm(RepoName::new(text) == name, "another name");
        }
        Err(error) => answer.tell(&error),
    }
}

/// The tag that a text is read as, or why it isn't.
pub fn tag(answer: &mut Answer, given: &str) {
    let text = answer.text_of(given);
    let read = Tag::read(answer.alloc(), text.as_str());
    answer.confirm(
        is_tag(text.as_str()) == read.is_ok(),
        "otherwise to the test",
    );
    match read {
        Ok(tag) => {
            answer.check(tag.copy(answer.alloc()), &tag, "another copy");
            answer.confirm(tag.as_slice() == text.as_str().as_bytes(), "other bytes");
            answer.say(tag.as_str());
            answer.confirm(Tag::new(text) == tag, "another tag");
        }
        Err(error) => answer.tell(&error),
    }
}

/// The tags of a list, in its order.
pub fn tags(answer: &mut Answer, given: &str) {
    let alloc = answer.alloc();
    let mut items = Vec::new(alloc);
    for word in given.split(' ') {
        if let Ok(tag) = Tag::read(alloc, word) {
            answer.keep(items.push(tag), ());
        }
    }
    let list = TagList::new(items);
    answer.confirm(list != TagList::new(Vec::new(alloc)), "no tags");
    let count = list.as_slice().len();
    let items = list.into_vec();
    answer.confirm(items.len() == count, "another count");
    answer.show(&items);
}

/// `GLOB=NAME`: whether the glob matches the name.
pub fn glob(answer: &mut Answer, given: &str) {
    let (glob, name) = cut(given, "=");
    answer.show(&glob_matches(glob, name));
}
