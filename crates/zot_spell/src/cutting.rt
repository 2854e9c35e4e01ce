//! Bytes cut where a byte or other bytes stand.
ghost use Rattle.std.specs.Prelude.{◌≡◌, ◌++◌, ◌∷◌, ◌==◌, ℕ, List, Some, None, IfSome, MatchOption};
ghost use Rattle.std.specs.List.{before_first};
ghost use Rattle.std.specs.Option.{option_copied};
ghost use Rattle.zot_spell.specs.Heads.{IsFree};

/// What stands after a front, where the bytes begin with it. Takes no memory.
pub fn after<'a>(bytes: &'a [u8], front: &[u8]) -> Option<&'a [u8]>
    ensures joined { IfSome result (λ rest. bytes.now ≡ front.now ++ rest.now) }
    ensures found { (rest : List ℕ) → bytes.now ≡ front.now ++ rest → option_copied result ≡ Some rest }
{
    if bytes.len() < front.len() {
        return None;
    }
    let (start, rest) = bytes.split_at(front.len());
    if start == front { Some(rest) } else { None }
}

/// The bytes before and after the first one that is the end. Takes no memory.
pub fn cut(bytes: &[u8], end: u8) -> Option<(&[u8], &[u8])>
    ensures joined { IfSome result (λ parts. bytes.now ≡ parts.0.now ++ (end ∷ parts.1.now)) }
    ensures found { (text rest : List ℕ) → IsFree end text → bytes.now ≡ text ++ (end ∷ rest)
        → MatchOption result ⊥ (λ parts. (parts.0.now ≡ text) × (parts.1.now ≡ rest)) }
    ensures none { IsFree end bytes.now → result ≡ None }
{
    let place = before(bytes, end).len();
    if place == bytes.len() {
        return None;
    }
    let (text, rest) = bytes.split_at(place);
    Some((text, &rest[1..]))
}

// The bytes before the first one that is the end.
fn before(bytes: &[u8], end: u8) -> &[u8]
    ensures { result.now ≡ before_first (λ b. b == end) bytes.now }
{
    match bytes.iter().position(|byte| *byte == end) {
        Some(place) => &bytes[..place],
        None => bytes,
    }
}
