// The index lists of a unit: the indices of its kept entries, ascending without repeats, or absent.
ghost use Rattle.std.specs.Prelude.{◌≡◌, ℕ, ◌/◌, List, length, Some};
ghost use Rattle.readers.specs.Abbreviations.{Placed, abbreviations_of};
ghost use Rattle.readers.specs.EntryAttributes.{specs_from, entry_values};
ghost use Rattle.marking.specs.Analysis.{Sections};
ghost use Rattle.rewriting.specs.Inner.Gathering.{Gathers};
ghost use Rattle.rewriting.specs.Indices.{declares, is_short};
ghost use Rattle.rewriting.specs.Inner.Indices.{specs_declare, table_declares};
ghost use Rattle.rewriting.specs.Rewriting.{Unit as Unit', any_declares};
ghost use Rattle.rewriting.specs.Inner.NextKept.{items_by};
ghost use Rattle.rewriting.specs.Inner.IndexLists.{kind_index, value_indices, ReadAs, TablesFound, Puts, Listing, is_absent};
ghost use Rattle.rewriting.specs.Inner.IndexLists.{Settles};

use crate::gathering::{add, finish};
use crate::kept_items::{KeptItem, PassPosition, Reading, next_kept};
use readers::abbreviations::{DeclarationStep, SpecStep};
use readers::attributes::{IndexKind, IndexList, list_of};
use readers::codes::DW_FORM_sec_offset;
use readers::cursor::{Cursor, Encoding};
use readers::entries::Step;
use readers::entry_attributes::next_attribute;
use readers::offsets::UnitOffset;
use readers::tables::clear_bytes;

// Whether an entry declares an attribute of a name in sec_offset.
fn entry_declares(
    unit: &[u8],
    abbreviations: &[u8],
    specs: Cursor,
    values: Cursor,
    name: u64,
    e: Encoding,
) -> bool
    ensures { result ≡ declares name (entry_values e abbreviations.now specs.at unit.now values.at) }
{
    let mut p = specs;
    let mut from = values;
    // No for: the place goes on by what is read there.
    loop {
        let Some(a) = next_attribute(unit, abbreviations, p, from, e) else {
            return false;
        };
        p = a.next;
        from = a.values;
        if a.name == name && a.declared == DW_FORM_sec_offset {
            return true;
        }
    }
}

// Whether any entry of the unit does, dead or kept.
fn any_declares(
    unit: &[u8],
    abbreviations: &[u8],
    r: Reading,
    index: &[u64],
    first: UnitOffset,
    name: u64,
) -> bool
    ensures { let s = abbreviations.now in
        let bytes = unit.now in
        ((x : Sections) (u : Unit') → ReadAs x u r s bytes
        → result ≡ any_declares x u name (items_by r s index.now bytes first.0)) }
{
    let mut at = Cursor {
        at: first.0 as usize,
    };
    // No for: the place goes on by what is read there.
    loop {
        let Some(step) = at.step(unit, abbreviations, r.from, index, r.encoding) else {
            return false;
        };
        match step {
            Step::Entry(x) => {
                let declaration = x.declaration;
                let next = x.next;
                if entry_declares(
                    unit,
                    abbreviations,
                    declaration.attributes,
                    x.values,
                    name,
                    r.encoding,
                ) {
                    return true;
                }
                at = next;
            }
            Step::Terminator(next) => {
                at = next;
            }
            Step::End => {
                return false;
            }
        }
    }
}

// How many numbers each list has, more than it has room for where it is too short.
#[derive(Clone, Copy)]
pub struct Lengths {
    pub ranges: usize,
    pub locations: usize,
    pub strings: usize,
}

// One value more in its index list, if it has one.
fn put_by_kind(
    list: IndexList,
    value: u64,
    range_list: &mut [u8],
    location_list: &mut [u8],
    string_list: &mut [u8],
    g: Lengths,
) -> Lengths
    ensures { Gathers (kind_index 0 list value) g.ranges range_list.old result.ranges range_list.new
        × (Gathers (kind_index 1 list value)
        g.locations location_list.old result.locations location_list.new
        × Gathers (kind_index 2 list value)
        g.strings string_list.old result.strings string_list.new) }
{
    let ranges = g.ranges;
    let locations = g.locations;
    let strings = g.strings;
    let Some(kind) = list.0 else {
        return g;
    };
    match kind {
        IndexKind::Ranges => Lengths {
            ranges: add(range_list, ranges, value),
            locations,
            strings,
        },
        IndexKind::Locations => Lengths {
            ranges,
            locations: add(location_list, locations, value),
            strings,
        },
        IndexKind::Strings => Lengths {
            ranges,
            locations,
            strings: add(string_list, strings, value),
        },
    }
}

// The indices of an entry, each in its list.
fn entry_gather(
    unit: &[u8],
    abbreviations: &[u8],
    specs: Cursor,
    values: Cursor,
    e: Encoding,
    range_list: &mut [u8],
    location_list: &mut [u8],
    string_list: &mut [u8],
    counts: Lengths,
) -> Lengths
    ensures { let vs = entry_values e abbreviations.now specs.at unit.now values.at in
        Gathers (value_indices 0 vs) counts.ranges range_list.old result.ranges range_list.new
        × (Gathers (value_indices 1 vs)
        counts.locations location_list.old result.locations location_list.new
        × Gathers (value_indices 2 vs)
        counts.strings string_list.old result.strings string_list.new) }
{
    let mut p = specs;
    let mut from = values;
    let mut g = counts;
    // No for: the place goes on by what is read there.
    loop {
        let Some(a) = next_attribute(unit, abbreviations, p, from, e) else {
            return g;
        };
        let v = a.value;
        let field = v.field;
        g = put_by_kind(
            list_of(v.form),
            field.value,
            range_list,
            location_list,
            string_list,
            g,
        );
        from = a.values;
        p = a.next;
    }
}

// The indices of the kept entries, each put into its list.
fn gather(
    unit: &[u8],
    abbreviations: &[u8],
    r: Reading,
    index: &[u64],
    parents: &[u64],
    ends: &[u64],
    marks: &[u8],
    first: UnitOffset,
    range_list: &mut [u8],
    location_list: &mut [u8],
    string_list: &mut [u8],
) -> Lengths
    ensures { (let made : ℕ → List ℕ → ℕ → List ℕ → Type 0 = (λ k.
        Puts k r abbreviations.now index.now unit.now
        parents.now ends.now marks.now first.0) in
        made 0 range_list.old result.ranges range_list.new
        × (made 1 location_list.old result.locations location_list.new
        × made 2 string_list.old result.strings string_list.new)) }
{
    let mut s = PassPosition::start(first);
    let mut g = Lengths {
        ranges: 0,
        locations: 0,
        strings: 0,
    };
    // No for: the place goes on by what is read there.
    loop {
        let Some(x) = next_kept(unit, abbreviations, r, index, parents, ends, marks, s) else {
            return g;
        };
        let next = x.next;
        s = next;
        if x.is_entry {
            g = entry_gather(
                unit,
                abbreviations,
                x.specs,
                x.values,
                r.encoding,
                range_list,
                location_list,
                string_list,
                g,
            );
        }
    }
}

// The indices of the kept entries as index lists: gathered in any order, and sorted.
pub(crate) fn sorted_lists(
    unit: &[u8],
    abbreviations: &[u8],
    r: Reading,
    index: &[u64],
    parents: &[u64],
    ends: &[u64],
    marks: &[u8],
    first: UnitOffset,
    range_list: &mut [u8],
    location_list: &mut [u8],
    string_list: &mut [u8],
) -> Lengths
    ensures { (let made : ℕ → List ℕ → ℕ → List ℕ → Type 0 = (λ k.
        Listing k r abbreviations.now index.now unit.now
        parents.now ends.now marks.now first.0) in
        made 0 range_list.old result.ranges range_list.new
        × (made 1 location_list.old result.locations location_list.new
        × made 2 string_list.old result.strings string_list.new)) }
{
    let g = gather(
        unit,
        abbreviations,
        r,
        index,
        parents,
        ends,
        marks,
        first,
        range_list,
        location_list,
        string_list,
    );
    Lengths {
        ranges: finish(range_list, g.ranges),
        locations: finish(location_list, g.locations),
        strings: finish(string_list, g.strings),
    }
}

// Whether the specifications from a place on declare an attribute of a name in sec_offset.
fn specs_declare(abbreviations: &[u8], specs: Cursor, name: u64) -> bool
    ensures { result ≡ specs_declare name (specs_from abbreviations.now specs.at) }
{
    let mut p = specs;
    // No for: the place goes on by what is read there.
    loop {
        let Some(step) = p.attribute_spec(abbreviations) else {
            return false;
        };
        match step {
            SpecStep::Attribute(a) => {
                p = a.next;
                if a.name == name && a.form == DW_FORM_sec_offset {
                    return true;
                }
            }
            SpecStep::Last(_) => {
                return false;
            }
        }
    }
}

// Whether any declaration of a unit does, used or not.
fn table_declares(abbreviations: &[u8], from: u64, name: u64) -> bool
    ensures { let s = abbreviations.now in
        ((ds : List Placed) → abbreviations_of s from ≡ Some ds → result ≡ table_declares s name ds) }
{
    let mut at = Cursor { at: from as usize };
    // No for: the place goes on by what is read there.
    loop {
        let Some(step) = at.declaration(abbreviations) else {
            return false;
        };
        match step {
            DeclarationStep::Declaration(d, next) => {
                if specs_declare(abbreviations, d.attributes, name) {
                    return true;
                }
                at = next;
            }
            DeclarationStep::Last(_) => {
                return false;
            }
        }
    }
}

// Whether a list is absent: where an entry declares the attribute of a name in sec_offset. A list without such an
// attribute has the name 0. No entry does where no declaration of the unit does: then the unit is not looked through.
fn is_absent(
    unit: &[u8],
    abbreviations: &[u8],
    r: Reading,
    index: &[u64],
    first: UnitOffset,
    name: u64,
) -> bool
    ensures { let s = abbreviations.now in
        let table = index.now in
        let bytes = unit.now in
        ((x : Sections) (u : Unit') → ReadAs x u r s bytes → TablesFound u r s table
        → result ≡ is_absent x u name (items_by r s table bytes first.0)) }
{
    name != 0
        && table_declares(abbreviations, r.from, name)
        && any_declares(unit, abbreviations, r, index, first, name)
}

// A list that was gathered: absent, and zeros again, or its count.
pub(crate) fn settle(
    unit: &[u8],
    abbreviations: &[u8],
    r: Reading,
    index: &[u64],
    first: UnitOffset,
    name: u64,
    count: usize,
    list: &mut [u8],
) -> Option<usize>
    ensures { Settles r abbreviations.now index.now unit.now first.0
        name count list.old result list.new }
{
    if is_absent(unit, abbreviations, r, index, first, name) {
        if count > 0 {
            clear_bytes(list);
        }
        return None;
    }
    Some(count)
}

// Whether a list has no room for its numbers.
pub fn is_short(count: Option<usize>, list: &[u8]) -> bool
    ensures { result ≡ is_short count (length list.now / 8) }
{
    match count {
        Some(n) => n > list.len() / 8,
        None => false,
    }
}
