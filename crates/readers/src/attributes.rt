// Values of attributes, by their forms (DWARF 5, 7.5.6).
ghost use Rattle.std.specs.Prelude.{◌≡◌, Bool};
ghost use Rattle.readers.specs.Forms.{form_token, in_version, list_form, value_token};
ghost use Rattle.readers.specs.Fields.{token_at};
ghost use Rattle.readers.specs.Entries.{attribute_at, attribute_end};
ghost use Rattle.readers.specs.Inner.Values.{attribute_of, field_end, number_end, width_of};
ghost use Rattle.readers.specs.Cursors.{fixed_at};

use crate::codes::{
    DW_AT_sibling, DW_FORM_GNU_addr_index, DW_FORM_GNU_str_index, DW_FORM_exprloc,
    DW_FORM_implicit_const, DW_FORM_indirect, DW_FORM_loclistx, DW_FORM_rnglistx, DW_FORM_strx,
    DW_FORM_strx1, DW_FORM_strx4,
};
use crate::cursor::{Cursor, Encoding};
use crate::fields::{Field, number_field};
use crate::layouts::*;
use std::marker::Model;

// The value of an attribute: the form that it has, behind DW_FORM_indirect too, and its field.
#[derive(Clone, Copy)]
pub struct Attribute {
    pub form: u64,
    pub field: Field,
}

// The token of each form below 0x2d, by its code (specs/Forms.antt).
static FORMS: [u8; 45] = [
    UNREADABLE, // 0x00
    ADDRESS, // 0x01 DW_FORM_addr
    UNREADABLE, // 0x02
    BLOCK2, // 0x03 DW_FORM_block2
    BLOCK4, // 0x04 DW_FORM_block4
    BYTES2, // 0x05 DW_FORM_data2
    BYTES4, // 0x06 DW_FORM_data4
    BYTES8, // 0x07 DW_FORM_data8
    NULL_TERMINATED, // 0x08 DW_FORM_string
    BLOCK_ULEB128, // 0x09 DW_FORM_block
    BLOCK1, // 0x0a DW_FORM_block1
    BYTES1, // 0x0b DW_FORM_data1
    BYTES1, // 0x0c DW_FORM_flag
    SLEB128, // 0x0d DW_FORM_sdata
    OFFSET, // 0x0e DW_FORM_strp
    ULEB128, // 0x0f DW_FORM_udata
    OFFSET, // 0x10 DW_FORM_ref_addr
    BYTES1, // 0x11 DW_FORM_ref1
    BYTES2, // 0x12 DW_FORM_ref2
    BYTES4, // 0x13 DW_FORM_ref4
    BYTES8, // 0x14 DW_FORM_ref8
    ULEB128, // 0x15 DW_FORM_ref_udata
    UNREADABLE, // 0x16 DW_FORM_indirect
    OFFSET, // 0x17 DW_FORM_sec_offset
    EXPRLOC, // 0x18 DW_FORM_exprloc
    NO_BYTES, // 0x19 DW_FORM_flag_present
    ULEB128, // 0x1a DW_FORM_strx
    ULEB128, // 0x1b DW_FORM_addrx
    BYTES4, // 0x1c DW_FORM_ref_sup4
    OFFSET, // 0x1d DW_FORM_strp_sup
    DATA16, // 0x1e DW_FORM_data16
    OFFSET, // 0x1f DW_FORM_line_strp
    BYTES8, // 0x20 DW_FORM_ref_sig8
    NO_BYTES, // 0x21 DW_FORM_implicit_const
    ULEB128, // 0x22 DW_FORM_loclistx
    ULEB128, // 0x23 DW_FORM_rnglistx
    BYTES8, // 0x24 DW_FORM_ref_sup8
    BYTES1, // 0x25 DW_FORM_strx1
    BYTES2, // 0x26 DW_FORM_strx2
    BYTES3, // 0x27 DW_FORM_strx3
    BYTES4, // 0x28 DW_FORM_strx4
    BYTES1, // 0x29 DW_FORM_addrx1
    BYTES2, // 0x2a DW_FORM_addrx2
    BYTES3, // 0x2b DW_FORM_addrx3
    BYTES4, // 0x2c DW_FORM_addrx4
];

// The token of a form; that of nothing readable for an unknown one.
pub fn form_token(form: u64) -> u8
    ensures { result ≡ form_token form }
{
    let i = form as usize;
    if i < FORMS.len() {
        return FORMS[i];
    }
    if form == DW_FORM_GNU_str_index || form == DW_FORM_GNU_addr_index {
        return ULEB128;
    }
    UNREADABLE
}

// Whether units of a version have a form.
pub fn in_version(version: u16, form: u64) -> bool
    ensures { result ≡ in_version version form }
{
    if version == 4 {
        form != DW_FORM_rnglistx && form != DW_FORM_loclistx
    } else {
        form != DW_FORM_GNU_addr_index
    }
}

// What the numbers of an index list are indices of.
#[derive(Clone, Copy)]
pub enum IndexKind {
    Ranges,
    Locations,
    Strings,
}

// The index list that a form counts in; none for a form that is no index. Contracts see its number: 0 ranges,
// 1 locations, 2 strings, 3 none.
#[derive(Clone, Copy)]
pub struct IndexList(pub Option<IndexKind>);

impl Model for IndexList {
    ghost use Rattle.std.specs.Prelude.{ℕ};
    ghost use mathlib.Core.Path.{ap};
    ghost use Rattle.readers.specs.IndexNumber.{list_number, list_numbered, list_numbered-list_number};

    ghost Value = { ℕ };

    ghost view = { λ l. list_number l.0 };

    ghost inverse = { λ n. record { 0 = list_numbered n } };

    ghost inverse_ok = { λ a h. ap (λ o. record { 0 = o }) (list_numbered-list_number a.0) };
}

// The index list of a form.
pub fn list_of(form: u64) -> IndexList
    ensures { result ≡ list_form form }
{
    match form {
        DW_FORM_rnglistx => IndexList(Some(IndexKind::Ranges)),
        DW_FORM_loclistx => IndexList(Some(IndexKind::Locations)),
        DW_FORM_strx | DW_FORM_strx1..=DW_FORM_strx4 | DW_FORM_GNU_str_index => {
            IndexList(Some(IndexKind::Strings))
        }
        _ => IndexList(None),
    }
}

// The width of a token of a fixed width: no bytes, a number of 1 to 8 bytes, an address or an offset.
fn width_of(token: u8, e: Encoding) -> usize
    ensures { result ≡ width_of e token }
{
    match token {
        ..=BYTES8 => token as usize,
        ADDRESS => e.address_size as usize,
        _ => e.offset_size as usize,
    }
}

// A value in a form, by what its field reads.
fn attribute_of(form: u64, read: Option<Field>) -> Option<Attribute>
    ensures { result ≡ attribute_of form read }
{
    let field = read?;
    Some(Attribute { form, field })
}

// Past a number, a field, a value.
fn past_number(n: Option<(u64, Cursor)>) -> Option<Cursor>
    ensures { result ≡ number_end n }
{
    let (_, next) = n?;
    Some(next)
}

fn past_field(read: Option<Field>) -> Option<Cursor>
    ensures { result ≡ field_end read }
{
    let field = read?;
    Some(field.next())
}

fn past_value(read: Option<Attribute>) -> Option<Cursor>
    ensures { result ≡ attribute_end read }
{
    let a = read?;
    let field = a.field;
    Some(field.next())
}

impl Cursor {
    // A value in a form that is not DW_FORM_indirect. A sibling in exprloc, implicit_const under indirect, and a form
    // that the version does not have, are unreadable.
    fn value(self, s: &[u8], indirect: bool, name: u64, form: u64, e: Encoding) -> Option<Field>
        ensures { result ≡ token_at e s.now self.at (value_token e indirect name form) }
    {
        if name == DW_AT_sibling && form == DW_FORM_exprloc {
            return None;
        }
        if indirect && form == DW_FORM_implicit_const {
            return None;
        }
        if !in_version(e.version, form) {
            return None;
        }
        self.field(s, form_token(form), e)
    }

    // The value of an attribute of a name and a declared form, whatever the form.
    fn any_attribute(self, s: &[u8], name: u64, form: u64, e: Encoding) -> Option<Attribute>
        ensures { result ≡ attribute_at e s.now self.at name form }
    {
        if form != DW_FORM_indirect {
            let field = self.value(s, false, name, form, e)?;
            return Some(Attribute { form, field });
        }
        let (found, next) = self.forms(s)?;
        let field = next.value(s, true, name, found, e)?;
        Some(Attribute { form: found, field })
    }

    // The value of an attribute of a name and a declared form. Most are numbers, which no name makes unreadable.
    pub fn attribute(self, s: &[u8], name: u64, form: u64, e: Encoding) -> Option<Attribute>
        ensures { result ≡ attribute_at e s.now self.at name form }
    {
        let start = self.at;
        let token = form_token(form);
        if token == NO_BYTES {
            return Some(Attribute {
                form,
                field: Field {
                    value: 0,
                    start,
                    end: start,
                },
            });
        }
        if token < ULEB128 {
            let n = self.fixed(s, width_of(token, e), e.big_endian);
            return attribute_of(form, number_field(start, n));
        }
        if token == ULEB128 {
            if !in_version(e.version, form) {
                return None;
            }
            return attribute_of(form, number_field(start, self.uleb(s)));
        }
        if form == DW_FORM_exprloc {
            if name == DW_AT_sibling {
                return None;
            }
            return attribute_of(form, self.exprloc(s));
        }
        self.any_attribute(s, name, form, e)
    }

    // Past a number of a fixed width.
    fn past_fixed(self, s: &[u8], width: usize) -> Option<Cursor>
        ensures { (big : Bool) → result ≡ number_end (fixed_at big width s.now self.at) }
    {
        if width > 8 {
            return None;
        }
        self.bytes(s, width as u64)
    }

    // Past the value of an attribute of a name and a declared form; most without reading it.
    pub fn past_attribute(self, s: &[u8], name: u64, form: u64, e: Encoding) -> Option<Cursor>
        ensures { result ≡ attribute_end (attribute_at e s.now self.at name form) }
    {
        let token = form_token(form);
        if token < ULEB128 {
            return self.past_fixed(s, width_of(token, e));
        }
        if token == NULL_TERMINATED {
            return self.string(s);
        }
        if token == SLEB128 {
            return past_number(self.sleb(s));
        }
        if token == ULEB128 {
            if !in_version(e.version, form) {
                return None;
            }
            return past_number(self.uleb(s));
        }
        if form == DW_FORM_exprloc {
            if name == DW_AT_sibling {
                return None;
            }
            return past_field(self.exprloc(s));
        }
        past_value(self.attribute(s, name, form, e))
    }
}
