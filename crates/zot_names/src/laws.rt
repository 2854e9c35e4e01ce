//! Laws of names and tags.
ghost use Rattle.std.specs.Prelude.{◌≡◌, ℕ, List};
ghost use Rattle.std.specs.List.{AllPass};
ghost use Rattle.zot_names.specs.Name.{IsName, is_name_byte, components_of};
ghost use Rattle.zot_names.specs.Tag.{IsTag, is_tag_byte};

/// The law that a name has only the bytes of names, among them no blank, `%`, `?` or `:`.
pub fn bytes_of_names()
    ensures { (text : List ℕ) → IsName text → AllPass is_name_byte text }
{}

/// The law that a tag has only the bytes of tags, among them no `/`, `%`, `?` or `:`.
pub fn bytes_of_tags()
    ensures { (text : List ℕ) → IsTag text → AllPass is_tag_byte text }
{}

/// The law that a name has one list of components, those between its slashes.
pub fn components_of_names()
    ensures { (text : List ℕ) (is : IsName text) → components_of text ≡ is.components }
{}
