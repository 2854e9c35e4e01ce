//! What a cluster is opened with.
use crate::place::Place;
use zot_cases::{Answer, number, word};

/// What a cluster is opened with: whether equal bytes are linked, the moment of all that happens, and the calls that fail,
/// which are those of one part that have these numbers.
#[derive(Drop)]
pub struct Setup {
    pub dedupe: bool,
    pub moment: u64,
    pub place: Place,
    pub failing: Vec<u64>,
}

impl Setup {
    /// `on MOMENT` or `off MOMENT`, and behind it `row NAME NUMBERS` or `shard TEXT NUMBERS` where calls fail.
    pub fn read(answer: &mut Answer, head: &str) -> Setup {
        Setup {
            dedupe: word(head, 0) == "on",
            moment: number(word(head, 1)),
            place: Place::read(answer, word(head, 2), word(head, 3)),
            failing: answer.numbers(word(head, 4)),
        }
    }
}
