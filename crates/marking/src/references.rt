// The references of an entry, into a lent table of offsets. scan_live_die_attrs and scan_loclist_for_refs have the
// names of their originals in gc.rs.
ghost use Rattle.std.specs.Prelude.{◌≡◌, length, set, Some};
ghost use Rattle.readers.specs.Abbreviations.{spec_at};
ghost use Rattle.readers.specs.Entries.{values_at};
ghost use Rattle.readers.specs.References.{flat_from};
ghost use Rattle.marking.specs.EntryReferences.{targets as offsets_of, expression_found, location_found, list_found};
ghost use Rattle.marking.specs.EntryReferences.{locations_by, attribute_found, attributes_found};
ghost use Rattle.marking.specs.ReferenceTable.{next_place, placed, written, scanned_to, table_after};
ghost use Rattle.marking.specs.Inner.ReferenceTable.{valued_by};
ghost use Rattle.marking.specs.ReferenceTable.{entry_scanned};
ghost use Rattle.readers.specs.EntryAttributes.{entry_values};
ghost use Rattle.readers.specs.Inner.EntryAttributes.{end_by};

use readers::abbreviations::SpecStep;
use readers::codes::{
    DW_AT_location, DW_AT_sibling, DW_FORM_exprloc, DW_FORM_loclistx, DW_FORM_ref_addr,
    DW_FORM_ref_udata, DW_FORM_ref1, DW_FORM_sec_offset, DW_LLE_base_address, DW_LLE_base_addressx,
    DW_LLE_default_location,
};
use readers::cursor::{Cursor, Encoding};
use readers::entry_attributes::{EntryAttribute, next_attribute};
use readers::expressions::{Reference, walk_expression};
use readers::lists::{list_offset, list_start};
use readers::offsets::UnitOffset;
use readers::operations::{ListEntry, ListStep};
use readers::refusal::{Cause, Refusal};

// A scan answers the place past its last reference in the table, past the table's end where it has no room for all; or
// the number of a refusal. That of an entry also answers where the values of its attributes end.
#[derive(Clone, Copy)]
pub struct EntryScan {
    pub place: usize,
    pub end: Option<Cursor>,
}

// Puts one reference at a place, if the table has it, and answers the next place.
fn put(targets: &mut [u64], at: usize, target: UnitOffset) -> usize
    ensures place { result ≡ next_place (length targets.old) at }
    ensures table { targets.new ≡ set targets.old at target.0 }
{
    if at < targets.len() {
        targets[at] = target.0;
        return at + 1;
    }
    targets.len() + 1
}

// Puts the references of a readable expression, one after the other.
fn put_references(s: &[u8], e: Encoding, targets: &mut [u64], at: usize) -> usize
    ensures { let offsets = offsets_of (flat_from e s.now 0) in
        (result ≡ placed (length targets.old) at offsets)
        × (targets.new ≡ written targets.old at offsets) }
{
    let mut c = Cursor { at: 0 };
    let mut to = at;
    // No for: the reader moves the cursor on.
    loop {
        let Some(r) = c.next_reference(s, e) else {
            return to;
        };
        to = put(targets, to, r.target);
        c = r.next;
    }
}

// The references of an expression: 5 where it is unreadable, 7 where it names something by an offset in the section.
fn scan_expression(s: &[u8], e: Encoding, targets: &mut [u64], at: usize) -> Result<usize, Refusal>
    ensures { let found = expression_found e s.now in
        (result ≡ scanned_to (length targets.old) at found)
        × (targets.new ≡ table_after targets.old at found) }
{
    let Some((references, absolute)) = walk_expression(s, e) else {
        return Err(Refusal(Cause::ListOrExpression));
    };
    if absolute {
        return Err(Refusal(Cause::AbsoluteReference));
    }
    if references == 0 {
        return Ok(at);
    }
    Ok(put_references(s, e, targets, at))
}

// The references of a location list's entry: base addresses have no expression, a default location has it first, the
// others third.
fn scan_location(
    s: &[u8],
    x: ListEntry,
    e: Encoding,
    targets: &mut [u64],
    at: usize,
) -> Result<usize, Refusal>
    ensures { let found = location_found e s.now x in
        (result ≡ scanned_to (length targets.old) at found)
        × (targets.new ≡ table_after targets.old at found) }
{
    if x.kind == DW_LLE_base_addressx || x.kind == DW_LLE_base_address {
        return Ok(at);
    }
    if x.kind == DW_LLE_default_location {
        let first = x.first;
        return scan_expression(first.expression(s), e, targets, at);
    }
    let third = x.third;
    scan_expression(third.expression(s), e, targets, at)
}

// The references of a location list, entry by entry; 5 where it can't be read.
fn scan_loclist_for_refs(
    s: &[u8],
    start: Cursor,
    e: Encoding,
    targets: &mut [u64],
    at: usize,
) -> Result<usize, Refusal>
    ensures { let found = list_found e s.now (Some start) in
        (result ≡ scanned_to (length targets.old) at found)
        × (targets.new ≡ table_after targets.old at found) }
{
    let mut c = start;
    let mut to = at;
    // No for: the reader moves the cursor on.
    loop {
        match c
            .list_entry(s, true, e)
            .ok_or(Refusal(Cause::ListOrExpression))?
        {
            ListStep::Entry(x) => {
                let next = x.next;
                to = scan_location(s, x, e, targets, to)?;
                c = next;
            }
            ListStep::End => {
                return Ok(to);
            }
        }
    }
}

// The references of a location list that may not be resolved: 5.
fn scan_loclist_at(
    s: &[u8],
    start: Option<Cursor>,
    e: Encoding,
    targets: &mut [u64],
    at: usize,
) -> Result<usize, Refusal>
    ensures { let found = list_found e s.now start in
        (result ≡ scanned_to (length targets.old) at found)
        × (targets.new ≡ table_after targets.old at found) }
{
    scan_loclist_for_refs(
        s,
        start.ok_or(Refusal(Cause::ListOrExpression))?,
        e,
        targets,
        at,
    )
}

// The references of an attribute.
fn scan_attribute(
    unit: &[u8],
    locations: &[u8],
    loclists_base: u64,
    a: EntryAttribute,
    e: Encoding,
    targets: &mut [u64],
    at: usize,
) -> Result<usize, Refusal>
    ensures { let lists = locations_by unit.now locations.now loclists_base in
        let found = attribute_found e lists (valued_by a) in
        (result ≡ scanned_to (length targets.old) at found)
        × (targets.new ≡ table_after targets.old at found) }
{
    let v = a.value;
    let field = v.field;
    let form = v.form;
    if a.name == DW_AT_sibling {
        return Ok(at);
    }
    if a.declared == DW_FORM_ref_addr {
        return Err(Refusal(Cause::AbsoluteReference));
    }
    if form == DW_FORM_exprloc {
        return scan_expression(field.expression(unit), e, targets, at);
    }
    if form >= DW_FORM_ref1 && form <= DW_FORM_ref_udata {
        return Ok(put(targets, at, UnitOffset(field.value)));
    }
    if a.name != DW_AT_location {
        return Ok(at);
    }
    if form == DW_FORM_loclistx {
        return scan_loclist_at(
            locations,
            list_offset(locations, loclists_base, field.value, e),
            e,
            targets,
            at,
        );
    }
    if form == DW_FORM_sec_offset {
        return scan_loclist_at(
            locations,
            list_start(locations, field.value),
            e,
            targets,
            at,
        );
    }
    Ok(at)
}

// Where the values of an entry end, by the place that no attribute was read at: there, if its specifications end there
// too; else it is unreadable.
fn values_end(abbreviations: &[u8], specs: Cursor, values: Cursor) -> Option<Cursor>
    ensures { result ≡ end_by values.at (spec_at abbreviations.now specs.at) }
{
    match specs.attribute_spec(abbreviations)? {
        SpecStep::Attribute(_) => None,
        SpecStep::Last(_) => Some(values),
    }
}

// The references of an entry, in attribute order: each as a 64-bit offset, repeats and dangling ones included. 5 and 7
// as they are met.
pub fn scan_live_die_attrs(
    unit: &[u8],
    abbreviations: &[u8],
    specs: Cursor,
    values: Cursor,
    locations: &[u8],
    loclists_base: u64,
    e: Encoding,
    targets: &mut [u64],
    at: usize,
) -> Result<EntryScan, Refusal>
    ensures { let lists = locations_by unit.now locations.now loclists_base in
        let attributes = entry_values e abbreviations.now specs.at unit.now values.at in
        let end = values_at e abbreviations.now specs.at unit.now values.at in
        let found = attributes_found e lists attributes in
        (result ≡ entry_scanned (scanned_to (length targets.old) at found) end)
        × (targets.new ≡ table_after targets.old at found) }
{
    let mut p = specs;
    let mut c = values;
    let mut to = at;
    // No for: two cursors move, as their readers say.
    loop {
        let Some(a) = next_attribute(unit, abbreviations, p, c, e) else {
            return Ok(EntryScan {
                place: to,
                end: values_end(abbreviations, p, c),
            });
        };
        let next = a.next;
        let past = a.values;
        to = scan_attribute(unit, locations, loclists_base, a, e, targets, to)?;
        c = past;
        p = next;
    }
}
