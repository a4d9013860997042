// What the readers read of a bundle's unit: header, entries with their attributes, references of expressions, lists.
use crate::answers::refused;
use bundle::Bundle;
use readers::abbreviations::{AttributeSpec, SpecStep};
use readers::attributes::Attribute;
use readers::codes::{
    DW_AT_loclists_base, DW_AT_rnglists_base, DW_FORM_exprloc, DW_FORM_flag_present,
    DW_FORM_implicit_const, DW_FORM_loclistx, DW_FORM_rnglistx, DW_FORM_sdata, DW_FORM_sec_offset,
    DW_LLE_default_location, DW_TAG_compile_unit,
};
use readers::cursor::{Cursor, Encoding};
use readers::entries::{Entry, Step};
use readers::fields::{Field, Operands};
use readers::header::UnitHeader;
use readers::layouts::ROW_ADDRESS_ADDRESS;
use readers::operations::{ListEntry, ListStep};
use readers::refusal::{Cause, Refusal};
use std::io;
use std::io::Write;

// A unit, with the sections that its entries name, its header and the index of its declarations.
#[derive(Clone, Copy)]
struct Unit<'a> {
    bytes: &'a [u8],
    abbreviations: &'a [u8],
    locations: &'a [u8],
    ranges: &'a [u8],
    header: UnitHeader,
    index: &'a [u64],
}

// Where the walk through the entries stands: the next entry or terminator, its depth, and the list bases.
#[derive(Clone, Copy)]
struct Place {
    next: Cursor,
    depth: u64,
    range_base: u64,
    location_base: u64,
}

// Where the walk through an entry's attributes stands: the next value and the next specification.
#[derive(Clone, Copy)]
struct Values {
    value: Cursor,
    spec: Cursor,
}

// More than a list, an entry or a unit of a bundle has steps.
const MOST_TURNS: usize = 65537;

// ---- values

// Whether the value of a form is a run of bytes, and not a number.
fn is_bytes(form: u64) -> bool {
    matches!(form, 0x03 | 0x04 | 0x08 | 0x09 | 0x0a | 0x18 | 0x1e)
}

fn value(to: &mut impl Write, form: u64, f: Field, implicit: u64) -> io::Result<()> {
    match form {
        _ if is_bytes(form) => writeln!(to, " bytes {} to {}", f.start, f.end),
        DW_FORM_implicit_const => writeln!(to, " value {}", implicit.cast_signed()),
        DW_FORM_sdata => writeln!(to, " value {}", f.value.cast_signed()),
        DW_FORM_flag_present => writeln!(to, " value 1"),
        _ => writeln!(to, " value {}", f.value),
    }
}

// ---- expressions

fn expression(to: &mut impl Write, s: &[u8], e: Encoding) -> io::Result<()> {
    let mut table = [0; 6144];
    match readers::expressions::references_of_expression(
        s,
        e.address_size,
        e.offset_size,
        e.big_endian,
        &mut table,
    ) {
        Ok(n) => {
            for row in table.chunks_exact(3).take(n) {
                writeln!(
                    to,
                    "  reference at {} to {} width {}",
                    row[0], row[1], row[2]
                )?;
            }
            Ok(())
        }
        Err(refusal) => {
            write!(to, "  expression ")?;
            refused(to, refusal)
        }
    }
}

// ---- lists

// The section of location lists or of range lists.
#[derive(Clone, Copy)]
struct ListSection<'a> {
    bytes: &'a [u8],
    location: bool,
    encoding: Encoding,
}

// Whether an entry of a location list has an expression: base addresses have none.
fn has_expression(kind: u8) -> bool {
    !matches!(kind, 1 | 6)
}

// The expression of a location list entry: its first field in a default location, else its third.
fn location_field(entry: ListEntry) -> Field {
    if entry.kind == DW_LLE_default_location {
        return entry.first;
    }
    entry.third
}

// An entry's line, and of a location list's entry the expression.
fn list_lines(to: &mut impl Write, s: ListSection<'_>, entry: ListEntry) -> io::Result<()> {
    let (kind, first, second) = (entry.kind, entry.first.value, entry.second.value);
    write!(to, "  kind {kind} {first} {second}")?;
    if s.location && has_expression(kind) {
        let f = location_field(entry);
        writeln!(to, " bytes {} to {}", f.start, f.end)?;
        return expression(to, f.expression(s.bytes), s.encoding);
    }
    writeln!(to)
}

// A list ends here.
fn ended(to: &mut impl Write) -> io::Result<Option<Cursor>> {
    writeln!(to, "  end")?;
    Ok(None)
}

// What is here can't be read.
fn list_refused(to: &mut impl Write) -> io::Result<Option<Cursor>> {
    write!(to, "  list ")?;
    refused(to, Refusal(Cause::ListOrExpression))?;
    Ok(None)
}

// One pair of a range list of version 4; answers where the next one is, if the list goes on. A begin of all ones makes
// its end the base of the pairs after it.
fn pair_step(to: &mut impl Write, s: ListSection<'_>, c: Cursor) -> io::Result<Option<Cursor>> {
    if c.at >= s.bytes.len() {
        return ended(to);
    }
    let Some(r) = c.row(s.bytes, ROW_ADDRESS_ADDRESS, s.encoding) else {
        return list_refused(to);
    };
    let (begin, end) = (r.first.value, r.second.value);
    if begin == 0 && end == 0 {
        return ended(to);
    }
    writeln!(to, "  pair {begin} {end}")?;
    Ok(Some(r.third.next()))
}

// One entry of a list; answers where the next one is, if the list goes on. A range list of version 4 has pairs.
fn list_step(to: &mut impl Write, s: ListSection<'_>, c: Cursor) -> io::Result<Option<Cursor>> {
    if !s.location && s.encoding.version == 4 {
        return pair_step(to, s, c);
    }
    match c.list_entry(s.bytes, s.location, s.encoding) {
        Some(ListStep::Entry(entry)) => {
            list_lines(to, s, entry)?;
            Ok(Some(entry.next))
        }
        Some(ListStep::End) => ended(to),
        None => list_refused(to),
    }
}

fn list(to: &mut impl Write, s: ListSection<'_>, start: Option<Cursor>) -> io::Result<()> {
    let Some(first) = start else {
        return writeln!(to, "  list unresolved");
    };
    writeln!(to, "  list at {}", first.at)?;
    let mut c = first;
    for _ in 0..MOST_TURNS {
        let Some(next) = list_step(to, s, c)? else {
            return Ok(());
        };
        c = next;
    }
    Ok(())
}

// Whether an attribute can name a location list (DWARF 5, 7.5.4, class loclist).
fn names_locations(name: u64) -> bool {
    matches!(
        name,
        0x02 | 0x19 | 0x2a | 0x38 | 0x40 | 0x46 | 0x48 | 0x4a | 0x4d
    )
}

// Whether it can name a range list (class rnglist).
fn names_ranges(name: u64) -> bool {
    matches!(name, 0x2c | 0x55)
}

fn lists(
    to: &mut impl Write,
    u: Unit<'_>,
    p: Place,
    name: u64,
    form: u64,
    v: u64,
) -> io::Result<()> {
    let encoding = u.header.encoding;
    let ranges = ListSection {
        bytes: u.ranges,
        location: false,
        encoding,
    };
    let locations = ListSection {
        bytes: u.locations,
        location: true,
        encoding,
    };
    let (section, start) = match form {
        DW_FORM_rnglistx => (
            ranges,
            readers::lists::list_offset(u.ranges, p.range_base, v, encoding),
        ),
        DW_FORM_loclistx => (
            locations,
            readers::lists::list_offset(u.locations, p.location_base, v, encoding),
        ),
        DW_FORM_sec_offset if names_ranges(name) => {
            (ranges, readers::lists::list_start(u.ranges, v))
        }
        DW_FORM_sec_offset if names_locations(name) => {
            (locations, readers::lists::list_start(u.locations, v))
        }
        _ => return Ok(()),
    };
    list(to, section, start)
}

// ---- attributes

// The next attribute of an entry, its value, and where the walk stands behind it; None at the entry's end.
fn next_attribute(u: Unit<'_>, v: Values) -> Option<(AttributeSpec, Attribute, Values)> {
    let Some(SpecStep::Attribute(a)) = v.spec.attribute_spec(u.abbreviations) else {
        return None;
    };
    let r = v
        .value
        .attribute(u.bytes, a.name, a.form, u.header.encoding)?;
    let behind = Values {
        value: r.field.next(),
        spec: a.next,
    };
    Some((a, r, behind))
}

fn attribute_lines(
    to: &mut impl Write,
    u: Unit<'_>,
    p: Place,
    a: AttributeSpec,
    v: Attribute,
) -> io::Result<()> {
    write!(to, " attribute {} form {}", a.name, v.form)?;
    value(to, v.form, v.field, a.implicit)?;
    if v.form == DW_FORM_exprloc {
        expression(to, v.field.expression(u.bytes), u.header.encoding)?;
    }
    lists(to, u, p, a.name, v.form, v.field.value)
}

fn attributes(to: &mut impl Write, u: Unit<'_>, p: Place, first: Values) -> io::Result<()> {
    let mut v = first;
    for _ in 0..MOST_TURNS {
        let Some((a, r, behind)) = next_attribute(u, v) else {
            return Ok(());
        };
        attribute_lines(to, u, p, a, r)?;
        v = behind;
    }
    Ok(())
}

// ---- list bases: DW_AT_rnglists_base and DW_AT_loclists_base of a compile unit entry, from that entry on

fn with_base(p: Place, name: u64, form: u64, value: u64) -> Place {
    let mut q = p;
    match name {
        DW_AT_rnglists_base if form == DW_FORM_sec_offset => q.range_base = value,
        DW_AT_loclists_base if form == DW_FORM_sec_offset => q.location_base = value,
        _ => {}
    }
    q
}

fn bases(u: Unit<'_>, p: Place, first: Values) -> Place {
    let mut q = p;
    let mut v = first;
    for _ in 0..MOST_TURNS {
        let Some((a, r, behind)) = next_attribute(u, v) else {
            return q;
        };
        q = with_base(q, a.name, r.form, r.field.value);
        v = behind;
    }
    q
}

// ---- entries

fn entry_line(to: &mut impl Write, entry: Entry, depth: u64) -> io::Result<()> {
    let d = entry.declaration;
    let children = if d.children { " children" } else { "" };
    writeln!(
        to,
        "entry {} depth {depth} code {} tag {}{children}",
        entry.offset.0, d.code, d.tag
    )
}

// An entry, its attributes, and the place after it.
fn entry(to: &mut impl Write, u: Unit<'_>, p: Place, x: Entry) -> io::Result<Place> {
    entry_line(to, x, p.depth)?;
    let d = x.declaration;
    let first = Values {
        value: x.values,
        spec: d.attributes,
    };
    let mut q = p;
    if d.tag == DW_TAG_compile_unit {
        q = bases(u, p, first);
    }
    attributes(to, u, q, first)?;
    q.next = x.next;
    if d.children {
        q.depth = q.depth.saturating_add(1);
    }
    Ok(q)
}

// One entry or terminator; answers the place after it, if the unit goes on.
fn place_step(to: &mut impl Write, u: Unit<'_>, p: Place) -> io::Result<Option<Place>> {
    let h = u.header;
    match p.next.step(
        u.bytes,
        u.abbreviations,
        h.abbreviations,
        u.index,
        h.encoding,
    ) {
        Some(Step::Entry(x)) => Ok(Some(entry(to, u, p, x)?)),
        Some(Step::Terminator(next)) => {
            writeln!(to, "terminator {} depth {}", p.next.at, p.depth)?;
            Ok(Some(Place {
                next,
                depth: p.depth.saturating_sub(1),
                ..p
            }))
        }
        Some(Step::End) => Ok(None),
        None => {
            refused(to, Refusal(Cause::Entry))?;
            Ok(None)
        }
    }
}

fn entries(to: &mut impl Write, u: Unit<'_>) -> io::Result<()> {
    let base = readers::lists::list_base(u.header.encoding);
    let mut p = Place {
        next: Cursor {
            at: u.header.first.0 as usize,
        },
        depth: 0,
        range_base: base,
        location_base: base,
    };
    for _ in 0..MOST_TURNS {
        let Some(next) = place_step(to, u, p)? else {
            return Ok(());
        };
        p = next;
    }
    Ok(())
}

fn header_line(to: &mut impl Write, h: UnitHeader) -> io::Result<()> {
    let e = h.encoding;
    write!(to, "version {} unit type {} ", e.version, h.unit_type)?;
    write!(
        to,
        "address_size {} abbreviations {} ",
        e.address_size, h.abbreviations
    )?;
    writeln!(to, "first {} end {}", h.first.0, h.end)
}

// Prints what a bundle holds, by the byte order of its unit; `bundle` where it is none, `refused` and a number where
// its unit can't be read.
pub fn dump(to: &mut impl Write, s: &[u8], big_endian: bool) -> io::Result<()> {
    let Some(b) = bundle::read_bundle(s) else {
        return writeln!(to, "bundle");
    };
    let section = bundle::section_bytes(s, b.unit);
    let h = match readers::header::unit_header(section, big_endian) {
        Ok(None) => return writeln!(to, "empty"),
        Err(refusal) => return refused(to, refusal),
        Ok(Some(h)) => h,
    };
    let abbreviations = bundle::section_bytes(s, b.abbreviations);
    let mut index = [0; 1024];
    match readers::abbreviations::check_abbreviations(abbreviations, h.abbreviations, &mut index) {
        Ok(()) => {
            header_line(to, h)?;
            let u = Unit {
                bytes: readers::header::unit_part(section, h),
                abbreviations,
                locations: bundle::section_bytes(s, b.locations),
                ranges: marking::analysis::ranges_for(
                    h.encoding,
                    bundle::section_bytes(s, b.ranges),
                    bundle::section_bytes(s, b.debug_ranges),
                ),
                header: h,
                index: &index,
            };
            entries(to, u)
        }
        Err(refusal) => refused(to, refusal),
    }
}
