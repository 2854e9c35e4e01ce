//! How cases write bytes and values.
use crate::answer::Answer;
use bstr::{ByteSlice, ByteVec};

// The text of the digest of `{}`, and what `Debug` writes for it.
const BRACES: &str = "sha256:44136fa355b3678a1146ad16f7e8649e94fb4fc21fe77e8310c060f61caaff8a";

const SHOWN_BRACES: &str =
    "Digest { bytes: [68, 19, 111, 163, 85, 179, 103, 138, 17, 70, 173, 22, 247, 232, 100, 158, 148, 251, 79, 194, 31, 231, 126, 131, 16, 192, 96, 246, 28, 170, 255, 138] }";

// The text of the digest of `abc`, and what `Debug` writes for it.
const LETTERS: &str = "sha256:ba7816bf8f01cfea414140de5dae2223b00361a396177a9cb410ff61f20015ad";

const SHOWN_LETTERS: &str =
    "Digest { bytes: [186, 120, 22, 191, 143, 1, 207, 234, 65, 65, 64, 222, 93, 174, 34, 35, 176, 3, 97, 163, 150, 23, 122, 156, 180, 16, 255, 97, 242, 0, 21, 173] }";

impl Answer {
    /// The bytes that a text of the case stands for: `|` is CR LF, `@` the text of the digest of `{}`, `$` that of `abc`,
    /// `^N*TEXT^` is N times the text, and `\r`, `\n`, `\t`, `\0`, `\\` and `\xNN` are bytes.
    pub fn read(&mut self, text: &str) -> Vec<u8> {
        let text = self.repeat(text);
        let text = self.swap(text.as_str(), "|", "\r\n");
        let text = self.swap(text.as_str(), "@", BRACES);
        let text = self.swap(text.as_str(), "$", LETTERS);
        let alloc = self.alloc();
        self.keep(Vec::unescape_bytes(alloc, text.as_str()), Vec::new(alloc))
    }

    /// The bytes that a text of the case stands for, of which `|`, `@` and `$` stand for themselves.
    pub fn bytes_of(&mut self, text: &str) -> Vec<u8> {
        let text = self.repeat(text);
        let alloc = self.alloc();
        self.keep(Vec::unescape_bytes(alloc, text.as_str()), Vec::new(alloc))
    }

    /// The text that these bytes are.
    pub fn text_of(&mut self, text: &str) -> String {
        let bytes = self.bytes_of(text);
        let alloc = self.alloc();
        self.keep(bytes.into_string_lossy(), String::new(alloc))
    }

    /// Adds bytes with escapes.
    pub fn write(&mut self, bytes: &[u8]) {
        let mut text = Answer::new(self.alloc());
        text.tell(&bytes.escape_bytes());
        let text = self.swap(text.as_str(), "\\x20", " ");
        self.say(text.as_str());
    }

    /// The numbers of a list with commas; other words are passed over.
    pub fn numbers(&mut self, list: &str) -> Vec<u64> {
        let mut numbers = Vec::new(self.alloc());
        for word in list.split(',') {
            if let Ok(number) = word.parse::<u64>() {
                self.keep(numbers.push(number), ());
            }
        }
        numbers
    }

    /// Whether this is what was wanted, in which `^N*TEXT^` is N times the text. In both CR LF may be `|`, and the digests of
    /// `{}` and `abc` `@` and `$`.
    pub(crate) fn is_right(&self, wanted: &str) -> bool {
        let mut compared = Answer::new(self.alloc());
        let came = compared.shorten(self.as_str());
        let wanted = compared.repeat(wanted);
        let wanted = compared.shorten(wanted.as_str());
        !self.is_wrong() && !compared.is_wrong() && came.as_str() == wanted.as_str()
    }

    // The text in which CR LF is `|`, and the digests of `{}` and `abc` are `@` and `$`.
    fn shorten(&mut self, text: &str) -> String {
        let text = self.swap(text, "\\r\\n", "|");
        let text = self.swap(text.as_str(), SHOWN_BRACES, "@");
        let text = self.swap(text.as_str(), SHOWN_LETTERS, "$");
        let text = self.swap(text.as_str(), BRACES, "@");
        self.swap(text.as_str(), LETTERS, "$")
    }

    // The text in which this stands for that.
    fn swap(&mut self, text: &str, that: &str, this: &str) -> String {
        let alloc = self.alloc();
        self.keep(text.replace(alloc, that, this), String::new(alloc))
    }

    // The text in which each `^N*TEXT^` is N times the text.
    fn repeat(&mut self, text: &str) -> String {
        let mut whole = Answer::new(self.alloc());
        let mut is_within = false;
        for part in text.split('^') {
            let (count, part) = if is_within {
                part.split_once('*').unwrap_or(("1", part))
            } else {
                ("1", part)
            };
            for _ in 0..count.parse::<u32>().unwrap_or(1) {
                whole.say(part);
            }
            is_within = !is_within;
        }
        self.confirm(!whole.is_wrong(), "out of memory");
        whole.into_text()
    }
}
