// The attributes of one name of an entry: those of other names are stepped over, and their values not read.
ghost use Rattle.std.specs.Prelude.{◌≡◌};
ghost use Rattle.readers.specs.Entries.{attribute_at};
ghost use Rattle.readers.specs.EntryAttributes.{taken};
ghost use Rattle.marking.specs.Inner.Named.{NamedAt};

use readers::abbreviations::{AttributeSpec, SpecStep};
use readers::attributes::Attribute;
use readers::cursor::{Cursor, Encoding};
use readers::entry_attributes::EntryAttribute;

// The attribute of a specification, at its value; none where that can't be read.
pub(crate) fn attribute_of(
    unit: &[u8],
    a: AttributeSpec,
    values: Cursor,
    e: Encoding,
) -> Option<EntryAttribute>
    ensures { result ≡ taken a (attribute_at e unit.now values.at a.name a.form) }
{
    let value = values.attribute(unit, a.name, a.form, e)?;
    let name = a.name;
    let declared = a.form;
    let next = a.next;
    let field = value.field;
    let values = field.next();
    Some(EntryAttribute {
        name,
        declared,
        value,
        next,
        values,
    })
}

// The first attribute of a name at or after a specification and a value of an entry; none where one of them can't be
// read.
pub(crate) fn next_named(
    unit: &[u8],
    abbreviations: &[u8],
    specs: Cursor,
    values: Cursor,
    name: u64,
    e: Encoding,
) -> Option<EntryAttribute>
    ensures { NamedAt e abbreviations.now specs.at unit.now values.at name result }
{
    let mut p = specs;
    let mut c = values;
    // No for: two cursors move, as their readers say.
    loop {
        match p.attribute_spec(abbreviations)? {
            SpecStep::Attribute(a) => {
                if a.name == name {
                    return attribute_of(unit, a, c, e);
                }
                let next = a.next;
                let past = c.past_attribute(unit, a.name, a.form, e)?;
                c = past;
                p = next;
            }
            SpecStep::Last(_) => {
                return None;
            }
        }
    }
}
