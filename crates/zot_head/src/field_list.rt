ghost use Rattle.std.specs.Prelude.{◌≡◌};

use crate::field::Field;
use std::marker::Model;

/// The fields of a head, in their order. Contracts see the list.
#[derive(Drop)]
pub struct FieldList {
    items: Vec<Field>,
}

impl Model for FieldList {
    ghost use Rattle.std.specs.Prelude.{List};
    ghost use Rattle.zot_head.specs.declared.field.Field.{Field};

    ghost Value = { List Field };

    ghost view = { λ l. l.items.items };
}

impl FieldList {
    /// The fields of a vector, which is not copied.
    pub fn new(items: Vec<Field>) -> Self
        ensures { result ≡ items.items }
    {
        FieldList { items }
    }

    /// The fields.
    pub fn as_slice(&self) -> &[Field]
        ensures { result.now ≡ self.now }
    {
        self.items.as_slice()
    }

    /// The fields as a vector. Takes no memory.
    pub fn into_vec(self) -> Vec<Field>
        ensures { result.items ≡ self }
    {
        self.items
    }
}
