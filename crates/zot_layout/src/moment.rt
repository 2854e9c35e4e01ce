//! Moments in annotations.
ghost use Rattle.std.specs.Prelude.{◌≡◌, option_map};
ghost use Rattle.std.specs.Char.{is_ascii_digit};
ghost use Rattle.std.specs.List.{list_all};
ghost use Rattle.serde_json.specs.View.{view};
ghost use Rattle.zot_layout.specs.Moments.{are_digits, is_moment, moment_named, moment_of, moment_or};

use serde_json::Value;

/// The most digits of a moment.
const MOST_DIGITS: usize = 20;

/// What an annotation says of a moment, in seconds.
#[derive(Clone, Copy)]
pub enum Moment {
    /// Nothing: it isn't there.
    Missing,
    /// This moment.
    At(u64),
    /// It is there, and isn't 1 to 20 decimal digits of a number that 64 bits hold.
    Wrong,
}

impl Moment {
    /// The moment, or the given one where it is missing.
    pub fn or(self, moment: u64) -> u64
        ensures { result ≡ moment_or moment self }
    {
        match self {
            Moment::At(said) => said,
            Moment::Missing | Moment::Wrong => moment,
        }
    }

    /// Whether it is missing or a moment.
    pub fn is_moment(self) -> bool
        ensures { result ≡ is_moment self }
    {
        match self {
            Moment::Missing | Moment::At(_) => true,
            Moment::Wrong => false,
        }
    }
}

/// What an annotation says of a moment, where it is there.
pub fn moment_of(field: Option<&Value>) -> Moment
    ensures { result ≡ moment_of (option_map (λ value. view value.now) field.entry) }
{
    let Some(field) = field else {
        return Moment::Missing;
    };
    match field.as_str().and_then(moment_named) {
        Some(moment) => Moment::At(moment),
        None => Moment::Wrong,
    }
}

// The moment that a text writes.
#[tactic(auto, unfolding(crate::specs::Moments::moment_named))]
fn moment_named(text: &str) -> Option<u64>
    ensures { result ≡ moment_named text.now }
{
    if are_digits(text.as_bytes()) {
        text.parse::<u64>().ok()
    } else {
        None
    }
}

// Whether a text is 1 to 20 decimal digits.
fn are_digits(text: &[u8]) -> bool
    ensures { result ≡ are_digits text.now }
{
    !text.is_empty() && text.len() <= MOST_DIGITS && has_digits(text)
}

// Whether each byte is a decimal digit.
fn has_digits(text: &[u8]) -> bool
    ensures { result ≡ list_all is_ascii_digit text.now }
{
    text.iter().all(|byte| byte.is_ascii_digit())
}
