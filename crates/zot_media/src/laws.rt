//! What holds of the texts of media, and of all readings.
ghost use Rattle.std.specs.Prelude.{◌≡◌, ℕ, List, Some, map};
ghost use Rattle.std.specs.Cmp.Lexicographic.{slice_cmp};
ghost use Rattle.std.specs.List.Sorted.{IsStrictlySortedBy};
ghost use Rattle.std.specs.Ordering.{nat_cmp};
ghost use Rattle.zot_media.specs.Manifest.{reading};
ghost use Rattle.zot_media.specs.Media.{media_named, media_text};
ghost use Rattle.zot_media.specs.declared.media.Media.{Media as AMedia};
ghost use Rattle.zot_media.specs.declared.reading.Reading.{Reading as AReading};

/// The text of media is read as these.
pub fn text_is_read()
    ensures { (media : AMedia) → media_named (media_text media) ≡ Some media }
{}

/// No other text is read as media.
pub fn only_texts_are_read()
    ensures { (text : List ℕ) (media : AMedia) → media_named text ≡ Some media → text ≡ media_text media }
{}

/// The annotations of a reading stand in byte order of their keys, each key once.
pub fn annotations_ascend()
    ensures { (media : AMedia) (bytes : List ℕ) (found : AReading) → reading media bytes ≡ Some found
        → IsStrictlySortedBy (slice_cmp nat_cmp) (map (λ annotation. annotation.key) found.annotations) }
{}
