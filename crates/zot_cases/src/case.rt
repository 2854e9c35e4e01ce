//! A case.
use crate::answer::Answer;

/// A case: what a call has to answer where this is given.
#[derive(Drop)]
pub struct Case<'a> {
    /// Its name.
    pub name: &'a str,
    /// The word of the call.
    pub call: &'a str,
    /// What the call is given, which may be empty.
    pub given: &'a str,
    /// What it has to answer, which may be empty.
    pub wanted: &'a str,
}

impl<'a> Case<'a> {
    /// The case of a line `NAME: CALL GIVEN => WANTED`; the last ` =>` counts. A line of another form is a case without a
    /// call, which no program answers.
    pub fn read(line: &'a str) -> Case<'a> {
        let (name, more) = cut(line, ": ");
        let (asked, wanted) = more.rsplit_once(" =>").unwrap_or(("", ""));
        let (call, given) = cut(asked, " ");
        Case {
            name,
            call,
            given,
            wanted: wanted.strip_prefix(' ').unwrap_or(wanted),
        }
    }

    /// The line that reports the case: `NAME: ok`, or `NAME: wanted WANTED, came CAME`.
    pub(crate) fn report(&self, came: &Answer) -> Answer {
        let mut line = Answer::new(came.alloc());
        line.say(self.name);
        if came.is_right(self.wanted) {
            line.say(": ok\n");
        } else {
            line.say(": wanted ");
            line.say(self.wanted);
            line.say(", came ");
            line.say(came.as_str());
            line.fail("\n");
        }
        line
    }
}

/// What stands before the first of these, and what stands after it; the second is empty where there is none.
pub fn cut<'a>(text: &'a str, at: &str) -> (&'a str, &'a str) {
    text.split_once(at).unwrap_or((text, ""))
}

/// The word at a place of a text whose words have one space between two, or nothing where there are fewer.
pub fn word(text: &str, place: usize) -> &str {
    text.split(' ').nth(place).unwrap_or("")
}

/// The number that a word says, or 0 where it says none.
pub fn number(word: &str) -> u64 {
    word.parse::<u64>().unwrap_or(0)
}
