//! The pieces of a glob.
ghost use Rattle.std.specs.Prelude.{◌≡◌, ◌∷◌, [], ◌<◌, IfSome, MatchOption, length};
ghost use Rattle.zot_names.specs.Glob.{pieces_of};

/// A piece of a glob.
#[derive(Clone, Copy, Debug)]
pub enum Piece {
    /// A byte, which stands for itself.
    Byte(u8),
    /// `*`, which stands for any run without `/`.
    Within,
    /// `**`, which stands for any run.
    Across,
}

/// The piece at the front of a glob and what stands after it, or none of an empty glob.
pub fn first_piece(glob: &[u8]) -> Option<(Piece, &[u8])>
    ensures pieces { MatchOption result (glob.now ≡ [])
        (λ first. pieces_of glob.now ≡ first.0 ∷ pieces_of first.1.now) }
    ensures shorter { IfSome result (λ first. length first.1.now < length glob.now) }
{
    match glob {
        [] => None,
        [b'*', b'*', rest @ ..] => Some((Piece::Across, rest)),
        [b'*', rest @ ..] => Some((Piece::Within, rest)),
        [byte, rest @ ..] => Some((Piece::Byte(*byte), rest)),
    }
}
