//! The hash of a text.
ghost use Rattle.std.specs.Prelude.{◌≡◌};
ghost use Rattle.zot_siphash.specs.SipHash as sip;

use crate::state::State;

/// The SipHash-2-4 value of a text under a key.
#[tactic(auto, unfolding(crate::specs::SipHash::siphash))]
pub fn siphash24(key: &[u8; 16], bytes: &[u8]) -> u64
    ensures { result ≡ sip.siphash key.now bytes.now }
{
    let (words, rest) = bytes.as_chunks::<8>();
    absorb_words(started(key), words)
        .absorb(last_word(rest, bytes.len()))
        .finish()
}

// The state under a key.
fn started(key: &[u8; 16]) -> State
    ensures { result ≡ sip.started (sip.word_of (sip.first_half key.now)) (sip.word_of (sip.second_half key.now)) }
{
    let [a, b, c, d, e, f, g, h, i, j, k, l, m, n, o, p] = *key;
    State::new(
        u64::from_le_bytes([a, b, c, d, e, f, g, h]),
        u64::from_le_bytes([i, j, k, l, m, n, o, p]),
    )
}

// The state after the whole words of a text.
#[tactic(auto, unfolding(crate::specs::SipHash::whole_words))]
fn absorb_words(state: State, words: &[[u8; 8]]) -> State
    ensures { result ≡ sip.whole_words state words.now }
{
    let mut state = state;
    for word in words {
        state = state.absorb(u64::from_le_bytes(*word));
    }
    state
}

// The last word: what is left of the text, and its length.
#[tactic(auto, unfolding(crate::specs::SipHash::last_word))]
fn last_word(rest: &[u8], size: usize) -> u64
    ensures { result ≡ sip.last_word rest.now size }
{
    u64::from_le_bytes([
        at(rest, 0),
        at(rest, 1),
        at(rest, 2),
        at(rest, 3),
        at(rest, 4),
        at(rest, 5),
        at(rest, 6),
        (size % 256) as u8,
    ])
}

// The byte at this place, or 0.
fn at(rest: &[u8], place: usize) -> u8
    ensures { result ≡ sip.left_at rest.now place }
{
    match rest.get(place) {
        Some(byte) => *byte,
        None => 0,
    }
}
