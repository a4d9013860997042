// Abbreviation declarations (DWARF 5, 7.5.3).
ghost use Rattle.std.specs.Prelude.{◌≡◌, true, ◌-◌, length, get_or, Ok};
ghost use Rattle.readers.specs.Choice.{zeros};
ghost use Rattle.readers.specs.Abbreviations.{spec_at, implicit_spec, past_attributes, head_at, declaration_at};
ghost use Rattle.readers.specs.Abbreviations.{declarations_from, search_at, checked_of};
ghost use Rattle.readers.specs.Inner.Abbreviations.{accepted, count_of, Gathered, PlainHead, PlainSpec};
ghost use Rattle.readers.specs.Abbreviations.{index_of, holds_code, head_in, find_head};

use crate::codes::{DW_CHILDREN_yes, DW_FORM_implicit_const};
use crate::cursor::{Cursor, left};
use crate::refusal::{Cause, Refusal};
use crate::slots::{Arranged, order, slot_code, slot_of};
use crate::tables::clear;

// An attribute specification: its name, its form, the value of an implicit_const (else 0), and the cursor past it.
#[derive(Clone, Copy)]
pub struct AttributeSpec {
    pub name: u64,
    pub form: u64,
    pub implicit: u64,
    pub next: Cursor,
}

// One step through a declaration's attribute specifications: one more, or the pair of zeros that closes them.
#[derive(Clone, Copy)]
pub enum SpecStep {
    Attribute(AttributeSpec),
    Last(Cursor),
}

// A declaration: its code, its tag, whether its entries have children, and where its attribute specifications start.
#[derive(Clone, Copy)]
pub struct Declaration {
    pub code: u64,
    pub tag: u64,
    pub children: bool,
    pub attributes: Cursor,
}

// One step through the declarations: one more and the cursor past it, or the zero that closes them.
#[derive(Clone, Copy)]
pub enum DeclarationStep {
    Declaration(Declaration, Cursor),
    Last(Cursor),
}

// A specification with its value where it is an implicit_const.
fn implicit_spec(s: &[u8], name: u64, form: u64, c: Cursor) -> Option<SpecStep>
    ensures { result ≡ implicit_spec s.now name form c.at }
{
    if form != DW_FORM_implicit_const {
        return Some(SpecStep::Attribute(AttributeSpec {
            name,
            form,
            implicit: 0,
            next: c,
        }));
    }
    let (implicit, next) = c.sleb(s)?;
    Some(SpecStep::Attribute(AttributeSpec {
        name,
        form,
        implicit,
        next,
    }))
}

// Whether two bytes are a name and a form of a specification that has no value of its own.
fn plain_spec(name: u64, form: u64) -> bool
    ensures { result ≡ true → PlainSpec name form }
{
    name != 0 && name < 128 && form != 0 && form < 128 && form != DW_FORM_implicit_const
}

// Whether three bytes are a code, a tag and a children byte of a declaration.
fn plain_head(code: u64, tag: u64, children: u64) -> bool
    ensures { result ≡ true → PlainHead code tag children }
{
    code != 0 && code < 128 && tag != 0 && tag < 128 && children <= DW_CHILDREN_yes
}

impl Cursor {
    // The attribute specification at a place. Most have a name and a form of one byte each.
    #[inline(always)]
    pub fn attribute_spec(self, s: &[u8]) -> Option<SpecStep>
        ensures { result ≡ spec_at s.now self.at }
    {
        let at = self.at;
        if left(s, at) >= 2 {
            let name = s[at] as u64;
            let form = s[at + 1] as u64;
            if plain_spec(name, form) {
                return Some(SpecStep::Attribute(AttributeSpec {
                    name,
                    form,
                    implicit: 0,
                    next: Cursor { at: at + 2 },
                }));
            }
            if name + form == 0 {
                return Some(SpecStep::Last(Cursor { at: at + 2 }));
            }
        }
        self.long_spec(s)
    }

    // The attribute specification at a place, of numbers of any length.
    #[inline(always)]
    fn any_spec(self, s: &[u8]) -> Option<SpecStep>
        ensures { result ≡ spec_at s.now self.at }
    {
        let (name, after_name) = self.short(s)?;
        let (form, after_form) = after_name.short(s)?;
        if name == 0 && form == 0 {
            return Some(SpecStep::Last(after_form));
        }
        if name == 0 || form == 0 {
            return None;
        }
        implicit_spec(s, name, form, after_form)
    }

    // The same, called: whoever goes by `attribute_spec` holds its way of two bytes alone.
    #[inline(never)]
    fn long_spec(self, s: &[u8]) -> Option<SpecStep>
        ensures { result ≡ spec_at s.now self.at }
    {
        self.any_spec(s)
    }

    // Past the attribute specifications that start at a place, and the pair that closes them.
    pub fn past_attributes(self, s: &[u8]) -> Option<Cursor>
        ensures { result ≡ past_attributes s.now self.at }
    {
        let mut c = self;
        loop {
            match c.any_spec(s)? {
                SpecStep::Attribute(a) => {
                    let next = a.next;
                    c = next;
                }
                SpecStep::Last(next) => {
                    return Some(next);
                }
            }
        }
    }

    // The head of the declaration at a place: its code, tag and children byte, and the cursor to its attribute
    // specifications. Most have a code and a tag of one byte each.
    #[inline(always)]
    pub fn head(self, s: &[u8]) -> Option<DeclarationStep>
        ensures { result ≡ head_at s.now self.at }
    {
        let at = self.at;
        if left(s, at) >= 3 {
            let code = s[at] as u64;
            let tag = s[at + 1] as u64;
            let children = s[at + 2] as u64;
            if plain_head(code, tag, children) {
                let attributes = Cursor { at: at + 3 };
                return Some(DeclarationStep::Declaration(
                    Declaration {
                        code,
                        tag,
                        children: children == DW_CHILDREN_yes,
                        attributes,
                    },
                    attributes,
                ));
            }
        }
        self.long_head(s)
    }

    // The head of the declaration at a place, of numbers of any length.
    fn long_head(self, s: &[u8]) -> Option<DeclarationStep>
        ensures { result ≡ head_at s.now self.at }
    {
        let (code, after_code) = self.uleb(s)?;
        if code == 0 {
            return Some(DeclarationStep::Last(after_code));
        }
        let (tag, after_tag) = after_code.short(s)?;
        if tag == 0 {
            return None;
        }
        let (children, attributes) = after_tag.fixed(s, 1, false)?;
        if children > DW_CHILDREN_yes {
            return None;
        }
        Some(DeclarationStep::Declaration(
            Declaration {
                code,
                tag,
                children: children == DW_CHILDREN_yes,
                attributes,
            },
            attributes,
        ))
    }

    // The declaration at a place, with its attribute specifications.
    #[inline(always)]
    pub fn declaration(self, s: &[u8]) -> Option<DeclarationStep>
        ensures { result ≡ declaration_at s.now self.at }
    {
        match self.long_head(s)? {
            DeclarationStep::Declaration(d, _) => {
                let attributes = d.attributes;
                let next = attributes.past_attributes(s)?;
                Some(DeclarationStep::Declaration(d, next))
            }
            DeclarationStep::Last(next) => Some(DeclarationStep::Last(next)),
        }
    }

    // The first declaration with a code among those that start at this place and before `to`.
    pub fn search(self, s: &[u8], to: usize, code: u64) -> Option<Declaration>
        ensures { result ≡ search_at s.now to code self.at }
    {
        // No for: each declaration says where the next one starts.
        let mut c = self;
        while c.at < to {
            match c.declaration(s)? {
                DeclarationStep::Declaration(d, next) => {
                    if d.code == code {
                        return Some(d);
                    }
                    c = next;
                }
                DeclarationStep::Last(_) => {
                    return None;
                }
            }
        }
        None
    }
}

// Writes one more than the place of each declaration into the slots of an index, in their order, as far as there is
// room, and counts them.
fn gather(s: &[u8], start: usize, index: &mut [u64]) -> Option<usize>
    ensures counted { result ≡ count_of (declarations_from s.now start) }
    ensures gathered { Gathered s.now start index.old index.new }
{
    let mut c = Cursor { at: start };
    let mut count: usize = 0;
    loop {
        match c.declaration(s)? {
            DeclarationStep::Declaration(_, next) => {
                if count < index.len() {
                    index[count] = (c.at as u64) + 1;
                }
                count += 1;
                c = next;
            }
            DeclarationStep::Last(_) => {
                return Some(count);
            }
        }
    }
}

// Whether the declarations can be read and no code is declared twice, by a search for each: as many steps as the
// square of their number. Only for an index that is too short for them.
fn check_plain(s: &[u8], start: usize) -> Result<(), Refusal>
    ensures { result ≡ checked_of s.now start }
{
    let mut c = Cursor { at: start };
    loop {
        match c.declaration(s).ok_or(Refusal(Cause::Abbreviations))? {
            DeclarationStep::Declaration(d, next) => {
                let earlier = (Cursor { at: start }).search(s, c.at, d.code);
                if earlier.is_some() {
                    return Err(Refusal(Cause::Abbreviations));
                }
                c = next;
            }
            DeclarationStep::Last(_) => {
                return Ok(());
            }
        }
    }
}

// Declarations are accepted where their codes can be brought in ascending order.
fn accept(a: Arranged) -> Result<(), Refusal>
    ensures { result ≡ accepted a }
{
    match a {
        Arranged::Ascending => Ok(()),
        Arranged::Repeated => Err(Refusal(Cause::Abbreviations)),
    }
}

// Fills an index that holds zeros, as far as the declarations are accepted.
fn fill_index(s: &[u8], start: usize, index: &mut [u64]) -> Result<(), Refusal>
    requires { index.old ≡ zeros (length index.old) }
    ensures answer { result ≡ checked_of s.now start }
    ensures filled { result ≡ Ok tt → index.new ≡ index_of s.now start (length index.old) }
{
    let count = gather(s, start, index).ok_or(Refusal(Cause::Abbreviations))?;
    if count > index.len() {
        clear(index);
        return check_plain(s, start);
    }
    accept(order(s, &mut index[..count]))
}

// Checks the whole list of declarations that starts at an offset, and fills an index of them: one more than the place
// of each, in ascending order of their codes, then zeros. An index with fewer numbers than there are declarations
// holds zeros alone, and so does one of a list that is refused.
pub fn check_abbreviations(s: &[u8], from: u64, index: &mut [u64]) -> Result<(), Refusal>
    ensures answer { result ≡ checked_of s.now from }
    ensures filled { index.new ≡ index_of s.now from (length index.old) }
{
    clear(index);
    match fill_index(s, from as usize, index) {
        Ok(()) => Ok(()),
        Err(refusal) => {
            clear(index);
            Err(refusal)
        }
    }
}

// Whether a slot holds the place of a declaration with this code.
fn holds_code(s: &[u8], slot: u64, code: u64) -> bool
    ensures { result ≡ holds_code s.now slot code }
{
    slot != 0 && slot_code(s, slot) == code
}

// A slot of the index; an empty one past its end.
fn slot_at(index: &[u64], i: usize) -> u64
    ensures { result ≡ get_or index.now i 0 }
{
    index.get(i).copied().unwrap_or(0)
}

// The number before a number; before 0 there is none, and it stays.
fn number_before(n: u64) -> usize
    ensures { result ≡ n - 1 }
{
    n.saturating_sub(1) as usize
}

// The declaration whose place a slot holds, by its head.
fn head_in(s: &[u8], slot: u64) -> Option<Declaration>
    ensures { result ≡ head_in s.now slot }
{
    let at = number_before(slot);
    match (Cursor { at }).head(s)? {
        DeclarationStep::Declaration(d, _) => Some(d),
        DeclarationStep::Last(_) => None,
    }
}

// The declaration with a code: through the slot that it has where compilers number from 1 on, else through the one
// that a search by halves ends at, else by the plain search, which is left for a code that is not declared and for an
// index that is too short. Its head alone is read: whoever reads an entry's values reads the attribute
// specifications, and finds out whether that is possible.
pub fn find_declaration(s: &[u8], from: u64, index: &[u64], code: u64) -> Option<Declaration>
    ensures { result ≡ find_head s.now from index.now code }
{
    let guess = slot_at(index, number_before(code));
    if holds_code(s, guess, code) {
        return head_in(s, guess);
    }
    let slot = slot_at(index, slot_of(s, index, code));
    if holds_code(s, slot, code) {
        return head_in(s, slot);
    }
    (Cursor { at: from as usize }).search(s, s.len(), code)
}
