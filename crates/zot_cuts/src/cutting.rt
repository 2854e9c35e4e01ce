//! Bytes cut in two.
ghost use Rattle.std.specs.Prelude.{◌≡◌, ◌==◌};
ghost use Rattle.std.specs.List.{after_first, before_first};

use memchr::memchr;

/// The bytes before the first one of this value, and those after it; all, and none, where there is no such byte. Takes no memory.
pub fn cut(bytes: &[u8], at: u8) -> (&[u8], &[u8])
    ensures before { result.0.now ≡ before_first (λ b. b == at) bytes.now }
    ensures after { result.1.now ≡ after_first (λ b. b == at) bytes.now }
{
    match memchr(at, bytes) {
        Some(place) => (&bytes[..place], &bytes[place + 1..]),
        None => (bytes, &[]),
    }
}
