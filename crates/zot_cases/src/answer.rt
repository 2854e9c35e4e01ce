//! What the call of a case answers.
use std::alloc::Global;
use std::fmt::{Debug, Display, Write};

/// What the call of a case answers, as text that is written piece by piece. It is wrong where memory runs out, or where
/// the program says so.
#[derive(Drop)]
pub struct Answer {
    alloc: Global,
    text: String,
    is_wrong: bool,
}

impl Answer {
    /// An empty answer.
    pub fn new(alloc: Global) -> Answer {
        Answer {
            alloc,
            text: String::new(alloc),
            is_wrong: false,
        }
    }

    /// The allocator, for calls that need it.
    pub fn alloc(&self) -> Global {
        self.alloc
    }

    /// The text.
    pub fn as_str(&self) -> &str {
        self.text.as_str()
    }

    /// The text, owned.
    pub fn into_text(self) -> String {
        self.text
    }

    /// Whether the case is wrong already.
    pub fn is_wrong(&self) -> bool {
        self.is_wrong
    }

    /// The case is wrong, and these words say why.
    pub fn fail(&mut self, why: &str) {
        self.say(why);
        self.is_wrong = true;
    }

    /// The case is wrong unless this holds.
    pub fn confirm(&mut self, holds: bool, otherwise: &str) {
        if !holds {
            self.fail(otherwise);
        }
    }

    /// The case is wrong unless a call gave this value.
    pub fn check<T: PartialEq + Drop, E: Drop>(
        &mut self,
        outcome: Result<T, E>,
        value: &T,
        otherwise: &str,
    ) {
        match outcome {
            Ok(given) => self.confirm(given == *value, otherwise),
            Err(_) => self.fail(otherwise),
        }
    }

    /// The value that a call gave, or this one, and then the case is wrong.
    pub fn keep<T: Drop, E: Drop>(&mut self, outcome: Result<T, E>, otherwise: T) -> T {
        self.is_wrong |= outcome.is_err();
        outcome.unwrap_or(otherwise)
    }

    /// Begins a part: after the first one it adds `; `.
    pub fn begin(&mut self) {
        if !self.text.is_empty() {
            self.say("; ");
        }
    }

    /// Adds these words.
    pub fn say(&mut self, words: &str) {
        let added = self.text.push_str(words);
        self.keep(added, ());
    }

    /// Adds a text that a call gave.
    pub fn give<E: Drop>(&mut self, text: Result<String, E>) {
        let text = self.keep(text, String::new(self.alloc));
        self.say(text.as_str());
    }

    /// Adds a value as it is displayed.
    pub fn tell<T: Display>(&mut self, value: &T) {
        let added = write!(self.text, "{value}");
        self.keep(added, ());
    }

    /// Adds a value as `Debug` writes it.
    pub fn show<T: Debug>(&mut self, value: &T) {
        let added = write!(self.text, "{value:?}");
        self.keep(added, ());
    }

    /// Adds what a call gave, or what its error displays and is.
    pub fn outcome<T: Debug, E: Debug + Display>(&mut self, outcome: &Result<T, E>) {
        match outcome {
            Ok(value) => self.show(value),
            Err(error) => {
                self.tell(error);
                self.say(" ");
                self.show(error);
            }
        }
    }
}
