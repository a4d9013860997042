// Writes a kept entry: each value at its own width, with new values for references, siblings and indices (gc.rs:
// `emit_attribute`).
ghost use Rattle.std.specs.Prelude.{◌≡◌, true, List, ℕ, ◌+◌, ◌-◌, ◌^◌, ◌≤◌, ◌<◌, length, drop, Option, Some, Ok};
ghost use Rattle.readers.specs.Layout.{Read, Piece, read_in, write_all, patch_all, bytes_of, patch_pieces, number_bytes};
ghost use Rattle.readers.specs.Expression.{expression_in};
ghost use Rattle.readers.specs.EntryAttributes.{next_attribute};
ghost use Rattle.readers.specs.Forms.{attribute_layout};
ghost use Rattle.readers.specs.Entries.{attribute_at, entry_layout, step_at};
ghost use Rattle.readers.specs.References.{encoded_by};
ghost use Rattle.readers.specs.declared.abbreviations.Declaration.{Declaration};
ghost use Rattle.readers.specs.declared.entries.Entry.{Entry};
ghost use Rattle.readers.specs.declared.entries.Step.TheVariants.{Entry as Entry'};
ghost use Rattle.rewriting.specs.Places.{Place};
ghost use Rattle.rewriting.specs.Indices.{rank_or};
ghost use Rattle.rewriting.specs.Written.{over};
ghost use Rattle.rewriting.specs.Inner.Written.{as_mapped, MapHeld};
ghost use Rattle.rewriting.specs.Inner.Bounds.{Bounds};
ghost use Rattle.rewriting.specs.Rewriting.{Lists, new_value, reads_refusal, pieces_refusal, or_self};
ghost use Rattle.rewriting.specs.Emission.{between, copied_count};
ghost use Rattle.rewriting.specs.Inner.Plans.{Copies, Planned};
ghost use Rattle.rewriting.specs.Inner.Emission.{Emits, Within, onward, Wide, number_refusal, offset_refusal, leb_form, Lent, ListsLent};

use crate::lists::hinted_rank;
use crate::map::hinted_offset;
use crate::numbers::{put_bytes, put_number};
use crate::siblings::sibling_offset;
use readers::abbreviations::SpecStep;
use readers::attributes::{Attribute, IndexKind, list_of};
use readers::codes::{
    DW_AT_sibling, DW_FORM_GNU_str_index, DW_FORM_exprloc, DW_FORM_indirect, DW_FORM_loclistx,
    DW_FORM_ref_udata, DW_FORM_ref1, DW_FORM_rnglistx, DW_FORM_strx,
};
use readers::cursor::{Cursor, Encoding};
use readers::entry_attributes::EntryAttribute;
use readers::expressions::Reference;
use readers::fields::Field;
use readers::offsets::UnitOffset;
use readers::refusal::{Cause, Refusal};

// Each `emit_` function answers how many bytes it wrote, or the number of a refusal.

// The bytes of a slice from one place to another, as far as it has them.
pub(crate) fn bytes_between<'a>(s: &'a [u8], from: usize, to: usize) -> &'a [u8]
    ensures { result.now ≡ between s.now from to }
{
    if from >= to || from >= s.len() {
        return &s[0..0];
    }
    &s[from..to.min(s.len())]
}

// Copies bytes to the start of a part: how many, 0 where there is no room for all.
pub fn emit_bytes(bytes: &[u8], out: &mut [u8]) -> usize
    ensures count { result ≡ copied_count bytes.now out.old }
    ensures part { out.new ≡ over bytes.now out.old }
{
    if bytes.len() > out.len() {
        return 0;
    }
    put_bytes(bytes, out);
    bytes.len()
}

// What is answered where so many bytes stand before: the count goes on, a refusal stays.
fn after(done: usize, rest: Result<usize, Refusal>) -> Result<usize, Refusal>
    requires { (n : ℕ) → rest ≡ Ok n → done + n < 2 ^ 64 }
    ensures { result ≡ onward done rest }
{
    let n = rest?;
    Ok(done + n)
}

// A number in so many bytes: 9 where it does not fit.
fn emit_number(
    value: u64,
    width: usize,
    leb: bool,
    big_endian: bool,
    out: &mut [u8],
) -> Result<usize, Refusal>
    ensures within { Within out.old result out.new }
    ensures bytes { Wide leb width
        → let e = encoded_by leb width in
        Emits (number_refusal e value) (number_bytes big_endian e value) out.old result out.new }
{
    if put_number(value, width, leb, big_endian, out) {
        return Ok(width);
    }
    Err(Refusal(Cause::TooWide))
}

// The new offset in the old one's place: 8 where it has none (gc.rs: `write_ref_value`).
fn emit_offset(
    new: Option<UnitOffset>,
    width: usize,
    leb: bool,
    big_endian: bool,
    out: &mut [u8],
) -> Result<usize, Refusal>
    ensures within { Within out.old result out.new }
    ensures bytes { (o : Option ℕ) (v : ℕ) → new ≡ as_mapped o → Wide leb width
        → let e = encoded_by leb width in
        Emits (offset_refusal e v o) (number_bytes big_endian e (or_self v o)) out.old result out.new }
{
    let value = new.ok_or(Refusal(Cause::TargetNotKept))?;
    emit_number(value.0, width, leb, big_endian, out)
}

// An expression with the new offsets of the entries that it names, nested ones too (gc.rs: `emit_expression`).
fn emit_expression(
    s: &[u8],
    e: Encoding,
    map: &[u8],
    places: usize,
    out: &mut [u8],
    work: &[u32],
) -> Result<usize, Refusal>
    ensures within { Within out.old result out.new }
    ensures bytes { (lists : Lists) (ps : List Place) (depth : ℕ) (pieces : List Piece)
        → MapHeld ps map.now → places ≡ length ps → expression_in e s.now ≡ Some pieces
        → Emits (pieces_refusal lists ps depth pieces)
        (bytes_of e.big_endian (patch_pieces (new_value lists ps depth) pieces))
        out.old result out.new }
{
    let mut from = Cursor { at: 0 };
    let mut copied: usize = 0;
    let mut to: usize = 0;
    // No for: the place goes on by what is read there.
    loop {
        let Some(r) = from.next_reference(s, e) else {
            let n = emit_bytes(&s[copied..], &mut out[to..]);
            return Ok(to + n);
        };
        let place = r.place;
        let target = r.target;
        let next = r.next;
        let n = emit_bytes(&s[copied..place], &mut out[to..]);
        to += n;
        to += emit_offset(
            hinted_offset(map, places, work, target),
            r.width,
            r.leb,
            e.big_endian,
            &mut out[to..],
        )?;
        copied = place + r.width;
        from = next;
    }
}

// Whether a form's value is a ULEB128 number.
fn is_leb(form: u64) -> bool
    ensures { result ≡ leb_form form }
{
    form == DW_FORM_ref_udata
        || form == DW_FORM_strx
        || form == DW_FORM_loclistx
        || form == DW_FORM_rnglistx
        || form == DW_FORM_GNU_str_index
}

// An index by its rank; as it is where its list is absent.
fn new_index(list: &[u8], count: Option<usize>, value: u64, kind: IndexKind, work: &[u32]) -> u64
    ensures { (o : Option (List ℕ)) → Lent o list.now count → result ≡ rank_or o value }
{
    match count {
        Some(n) => hinted_rank(list, n, work, kind, value) as u64,
        None => value,
    }
}

fn width(f: Field) -> usize
    ensures { result ≡ f.end - f.start }
{
    f.end.saturating_sub(f.start)
}

// An attribute's value: what stands before it (form numbers, a length) is copied (gc.rs: `emit_attribute`).
fn emit_attribute(
    unit: &[u8],
    values: Cursor,
    a: EntryAttribute,
    depth: u64,
    e: Encoding,
    map: &[u8],
    places: usize,
    bounds: &[u32],
    ranges: &[u8],
    ranges_count: Option<usize>,
    locations: &[u8],
    locations_count: Option<usize>,
    strings: &[u8],
    strings_count: Option<usize>,
    out: &mut [u8],
) -> Result<usize, Refusal>
    ensures within { Within out.old result out.new }
    ensures bytes { (lists : Lists) (ps : List Place) (rs : List Read) (rest : List ℕ)
        → MapHeld ps map.now → places ≡ length ps → Bounds ps bounds.now
        → ListsLent lists ranges.now ranges_count locations.now locations_count
        strings.now strings_count
        → values.at ≤ length unit.now
        → attribute_at e unit.now values.at a.name a.declared ≡ Some a.value
        → read_in e.big_endian (expression_in e) (attribute_layout e a.name a.declared)
        (drop values.at unit.now) ≡ Some (rs, rest)
        → Emits (reads_refusal lists ps depth rs)
        (write_all e.big_endian (patch_all (new_value lists ps depth) rs))
        out.old result out.new }
{
    let v = a.value;
    let field = v.field;
    let form = v.form;
    let to = emit_bytes(bytes_between(unit, values.at, field.start), out);
    let part = &mut out[to..];
    let leb = is_leb(form);
    if form == DW_FORM_exprloc {
        return after(
            to,
            emit_expression(field.expression(unit), e, map, places, part, bounds),
        );
    }
    if form >= DW_FORM_ref1 && form <= DW_FORM_ref_udata {
        let old = UnitOffset(field.value);
        let new = if a.name == DW_AT_sibling {
            sibling_offset(map, places, bounds, old, depth)
        } else {
            hinted_offset(map, places, bounds, old)
        };
        return after(to, emit_offset(new, width(field), leb, e.big_endian, part));
    }
    let list = list_of(form);
    let Some(kind) = list.0 else {
        let n = emit_bytes(bytes_between(unit, field.start, field.end), part);
        return Ok(to + n);
    };
    let index = match kind {
        IndexKind::Ranges => new_index(ranges, ranges_count, field.value, kind, bounds),
        IndexKind::Locations => new_index(locations, locations_count, field.value, kind, bounds),
        IndexKind::Strings => new_index(strings, strings_count, field.value, kind, bounds),
    };
    after(
        to,
        emit_number(index, width(field), leb, e.big_endian, part),
    )
}

// What is to be done with the next attribute: a value that is copied, by the cursors past it and past its specification;
// one that may change.
#[derive(Clone, Copy)]
pub enum Plan {
    Copy(Cursor, Cursor),
    Change(EntryAttribute),
}

// Whether the values of a declared form are copied as they are.
fn copies(form: u64) -> bool
    ensures { result ≡ true → Copies form }
{
    (form < DW_FORM_ref1 || form > DW_FORM_indirect)
        && form != DW_FORM_exprloc
        && list_of(form).0.is_none()
}

// The next attribute of an entry, if it has one: of a value that is copied no more is read than where it ends.
fn next_plan(
    unit: &[u8],
    abbreviations: &[u8],
    specs: Cursor,
    values: Cursor,
    e: Encoding,
) -> Option<Plan>
    ensures { Planned (next_attribute e abbreviations.now specs.at unit.now values.at) result }
{
    let SpecStep::Attribute(a) = specs.attribute_spec(abbreviations)? else {
        return None;
    };
    let next = a.next;
    if copies(a.form) {
        let past = values.past_attribute(unit, a.name, a.form, e)?;
        return Some(Plan::Copy(past, next));
    }
    let value = values.attribute(unit, a.name, a.form, e)?;
    let name = a.name;
    let declared = a.form;
    let field = value.field;
    let past = field.next();
    Some(Plan::Change(EntryAttribute {
        name,
        declared,
        value,
        next,
        values: past,
    }))
}

// An entry: its code, then its attributes (gc.rs: a turn of `emit_dies`).
pub(crate) fn emit_entry(
    unit: &[u8],
    abbreviations: &[u8],
    start: UnitOffset,
    specs: Cursor,
    values: Cursor,
    depth: u64,
    e: Encoding,
    map: &[u8],
    places: usize,
    bounds: &[u32],
    ranges: &[u8],
    ranges_count: Option<usize>,
    locations: &[u8],
    locations_count: Option<usize>,
    strings: &[u8],
    strings_count: Option<usize>,
    out: &mut [u8],
) -> Result<usize, Refusal>
    ensures within { Within out.old result out.new }
    ensures bytes { (lists : Lists) (ps : List Place) (look : ℕ → Option Declaration) (x : Entry) (rs : List Read) (rest : List ℕ)
        → MapHeld ps map.now → places ≡ length ps → Bounds ps bounds.now
        → ListsLent lists ranges.now ranges_count locations.now locations_count
        strings.now strings_count
        → step_at e abbreviations.now look unit.now start.0 ≡ Some (Entry' x)
        → specs ≡ x.declaration.attributes → values ≡ x.values
        → read_in e.big_endian (expression_in e) (entry_layout e abbreviations.now look)
        (drop start.0 unit.now) ≡ Some (rs, rest)
        → Emits (reads_refusal lists ps depth rs)
        (write_all e.big_endian (patch_all (new_value lists ps depth) rs))
        out.old result out.new }
{
    let mut p = specs;
    let mut from = values;
    let mut to = emit_bytes(bytes_between(unit, start.0 as usize, from.at), out);
    // No for: the place goes on by what is read there.
    loop {
        match next_plan(unit, abbreviations, p, from, e) {
            Some(Plan::Copy(past, next)) => {
                let n = emit_bytes(bytes_between(unit, from.at, past.at), &mut out[to..]);
                to += n;
                from = past;
                p = next;
            }
            Some(Plan::Change(a)) => {
                let next = a.next;
                let past = a.values;
                to += emit_attribute(
                    unit,
                    from,
                    a,
                    depth,
                    e,
                    map,
                    places,
                    bounds,
                    ranges,
                    ranges_count,
                    locations,
                    locations_count,
                    strings,
                    strings_count,
                    &mut out[to..],
                )?;
                from = past;
                p = next;
            }
            None => {
                return Ok(to);
            }
        }
    }
}
