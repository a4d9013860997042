// The attributes of an entry, one after the other.
ghost use Rattle.std.specs.Prelude.{◌≡◌};
ghost use Rattle.readers.specs.EntryAttributes.{next_attribute};

use crate::abbreviations::SpecStep;
use crate::attributes::Attribute;
use crate::cursor::{Cursor, Encoding};

// An attribute of an entry: its name, the form that it is declared with, its value, the cursor past its
// specification, and the cursor past its value.
#[derive(Clone, Copy)]
pub struct EntryAttribute {
    pub name: u64,
    pub declared: u64,
    pub value: Attribute,
    pub next: Cursor,
    pub values: Cursor,
}

// The attribute at a specification and a value of an entry; none where one of them can't be read.
pub fn next_attribute(
    unit: &[u8],
    abbreviations: &[u8],
    specs: Cursor,
    values: Cursor,
    e: Encoding,
) -> Option<EntryAttribute>
    ensures { result ≡ next_attribute e abbreviations.now specs.at unit.now values.at }
{
    match specs.attribute_spec(abbreviations)? {
        SpecStep::Attribute(a) => {
            let value = values.attribute(unit, a.name, a.form, e)?;
            let name = a.name;
            let declared = a.form;
            let next = a.next;
            let field = value.field;
            let values = field.next();
            Some(EntryAttribute {
                name,
                declared,
                value,
                next,
                values,
            })
        }
        SpecStep::Last(_) => None,
    }
}
