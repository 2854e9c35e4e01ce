//! The state of a hash that is being computed.
ghost use Rattle.std.specs.Prelude.{◌≡◌};
ghost use Rattle.zot_siphash.specs.SipHash as sip;

/// The four words of SipHash ("SipHash: a fast short-input PRF", section 2).
#[derive(Clone, Copy)]
pub struct State {
    pub v0: u64,
    pub v1: u64,
    pub v2: u64,
    pub v3: u64,
}

impl State {
    /// The state under a key of two words.
    #[tactic(auto, unfolding(crate::specs::SipHash::started))]
    pub fn new(k0: u64, k1: u64) -> Self
        ensures { result ≡ sip.started k0 k1 }
    {
        State {
            v0: k0 ^ 0x736f_6d65_7073_6575,
            v1: k1 ^ 0x646f_7261_6e64_6f6d,
            v2: k0 ^ 0x6c79_6765_6e65_7261,
            v3: k1 ^ 0x7465_6462_7974_6573,
        }
    }

    // The state after one round.
    #[tactic(auto, unfolding(crate::specs::SipHash::round))]
    fn round(self) -> Self
        ensures { result ≡ sip.round self }
    {
        let a0 = self.v0.wrapping_add(self.v1);
        let a1 = self.v1.rotate_left(13) ^ a0;
        let a2 = self.v2.wrapping_add(self.v3);
        let a3 = self.v3.rotate_left(16) ^ a2;
        let v0 = a0.rotate_left(32).wrapping_add(a3);
        let v3 = a3.rotate_left(21) ^ v0;
        let b2 = a2.wrapping_add(a1);
        let v1 = a1.rotate_left(17) ^ b2;
        let v2 = b2.rotate_left(32);
        State { v0, v1, v2, v3 }
    }

    /// The state after a word of the text: two rounds.
    #[tactic(auto, unfolding(crate::specs::SipHash::absorbed))]
    pub fn absorb(self, word: u64) -> Self
        ensures { result ≡ sip.absorbed self word }
    {
        let State { v0, v1, v2, v3 } = self;
        let mixed = State {
            v0,
            v1,
            v2,
            v3: v3 ^ word,
        };
        let turned = mixed.round().round();
        let State { v0, v1, v2, v3 } = turned;
        State {
            v0: v0 ^ word,
            v1,
            v2,
            v3,
        }
    }

    /// The value after the last word: four rounds.
    #[tactic(auto, unfolding(crate::specs::SipHash::finished))]
    pub fn finish(self) -> u64
        ensures { result ≡ sip.finished self }
    {
        let State { v0, v1, v2, v3 } = self;
        let mixed = State {
            v0,
            v1,
            v2: v2 ^ 0xff,
            v3,
        };
        let turned = mixed.round().round().round().round();
        turned.v0 ^ turned.v1 ^ turned.v2 ^ turned.v3
    }
}
