// Expressions: whether they can be read, and the entries that they name.
ghost use Rattle.std.specs.Prelude.{◌≡◌, ◌++◌, ◌*◌, ◌-◌, length};
ghost use Rattle.readers.specs.Choice.{◌and◌};
ghost use Rattle.readers.specs.Choice.{zeros};
ghost use Rattle.readers.specs.References.{walk_of, named, named_type, reference_of, next_reference};
ghost use Rattle.readers.specs.Inner.References.{own_walk, Room};
ghost use Rattle.readers.specs.Header.{size_known};
ghost use Rattle.readers.specs.References.{flat_from, references_answer, references_table, numbers_of};

use crate::cursor::{Cursor, Encoding};
use crate::fields::Field;
use crate::header::size_known;
use crate::layouts::*;
use crate::offsets::UnitOffset;
use crate::operations::Operation;
use crate::refusal::{Cause, Refusal};
use crate::tables::clear;

// A reference of an expression: where its operand stands, the offset that it names, how its operand is written
// (`leb`: as a ULEB128 number) and in how many bytes, and where the walk goes on.
#[derive(Clone, Copy)]
pub struct Reference {
    pub place: usize,
    pub target: UnitOffset,
    pub leb: bool,
    pub width: usize,
    pub next: Cursor,
}

// The bytes of a field.
fn width(f: Field) -> usize
    ensures { result ≡ f.end - f.start }
{
    f.end.saturating_sub(f.start)
}

fn named(f: Field, leb: bool, next: Cursor) -> Option<Reference>
    ensures { result ≡ named f leb next }
{
    Some(Reference {
        place: f.start,
        target: UnitOffset(f.value),
        leb,
        width: width(f),
        next,
    })
}

// A type operand: 0 names nothing.
fn named_type(f: Field, next: Cursor) -> Option<Reference>
    ensures { result ≡ named_type f next }
{
    if f.value == 0 {
        None
    } else {
        named(f, true, next)
    }
}

// The reference of an operation, if it holds one.
fn reference_of(op: Operation) -> Option<Reference>
    ensures { result ≡ reference_of op }
{
    let row = op.row;
    let first = op.first;
    let second = op.second;
    let next = op.next;
    // The common rows stand below those that hold a reference.
    if row < ROW_REFERENCE2 {
        return None;
    }
    match row {
        ROW_REFERENCE2 | ROW_REFERENCE4 => named(first, false, next),
        ROW_TYPE | ROW_TYPE_BLOCK1 => named_type(first, next),
        ROW_REGISTER_TYPE | ROW_BYTES1_TYPE => named_type(second, next),
        _ => None,
    }
}

// What an operation that is no entry value holds by itself, as a walk tells it.
fn own_walk(op: Operation) -> Option<(usize, bool)>
    ensures { result ≡ own_walk op }
{
    let row = op.row;
    if row == ROW_OFFSET || row == ROW_OFFSET_SLEB128 {
        return Some((0, true));
    }
    match reference_of(op) {
        Some(_) => { Some((1, false)) }
        None => { Some((0, false)) }
    }
}

// Walks an expression to its end. An entry value is walked by the same routine, on the part that it holds.
pub fn walk_expression(s: &[u8], e: Encoding) -> Option<(usize, bool)>
    ensures { result ≡ walk_of e s.now }
{
    let mut c = Cursor { at: 0 };
    let mut references: usize = 0;
    let mut absolute = false;
    // No for: each operation says where the next one starts.
    while c.at < s.len() {
        let op = c.operation(s, e)?;
        let row = op.row;
        let first = op.first;
        let next = op.next;
        // Each branch takes its answer by itself: one answer for both would lie in memory.
        if row == ROW_EXPRESSION {
            let (more, named) = walk_expression(first.expression(s), e)?;
            references += more;
            absolute |= named;
        } else {
            let (more, named) = own_walk(op)?;
            references += more;
            absolute |= named;
        }
        c = next;
    }
    Some((references, absolute))
}

impl Cursor {
    // The next reference of an expression, at or after a place. The walk goes on inside an entry value, so that it
    // passes each byte once. It must start at 0 of an expression that walk_expression walked to its end, and go on
    // from each reference's `next`: then it yields the expression's references, each once, in their order
    // (`walked-yields` in crates/laws). From any other place it yields what the bytes there say, read as
    // operations: it can't tell where a nested part ends.
    pub fn next_reference(self, s: &[u8], e: Encoding) -> Option<Reference>
        ensures { result ≡ next_reference e s.now self.at }
    {
        // No for: each operation says where the next one starts.
        let mut c = self;
        while c.at < s.len() {
            let op = c.operation(s, e)?;
            let row = op.row;
            let first = op.first;
            let next = op.next;
            if row == ROW_EXPRESSION {
                c = Cursor { at: first.start };
            } else {
                match reference_of(op) {
                    Some(r) => {
                        return Some(r);
                    }
                    None => {
                        c = next;
                    }
                }
            }
        }
        None
    }
}

fn sizes_known(address_size: u8, offset_size: u8) -> bool
    ensures { result ≡ (size_known address_size and size_known offset_size) }
{
    size_known(address_size) && size_known(offset_size)
}

// The references of an expression, in walk order: three numbers each, where its operand stands, the offset that it
// names, and the operand's width. The byte order is that of the expression's unit. Refused with 2 for an address size or
// an offset size other than 4 and 8, 5 for an unreadable expression, 7 for an offset in the section, 11 for a table that
// is too short.
pub fn references_of_expression(
    s: &[u8],
    address_size: u8,
    offset_size: u8,
    big_endian: bool,
    table: &mut [u64],
) -> Result<usize, Refusal>
    ensures answer { result
        ≡ references_answer address_size offset_size big_endian (length table.old) s.now }
    ensures filled { table.new
        ≡ references_table address_size offset_size big_endian (length table.old) s.now }
{
    clear(table);
    if !sizes_known(address_size, offset_size) {
        return Err(Refusal(Cause::OutsideDomain));
    }
    let e = Encoding {
        version: 5,
        offset_size,
        address_size,
        big_endian,
    };
    let (references, absolute) = walk_expression(s, e).ok_or(Refusal(Cause::ListOrExpression))?;
    if absolute {
        return Err(Refusal(Cause::AbsoluteReference));
    }
    if references > table.len() / 3 {
        return Err(Refusal(Cause::ReferenceTableFull));
    }
    fill_references(s, e, table, references);
    Ok(references)
}

// Writes the references into a cleared table that has room for them.
fn fill_references(s: &[u8], e: Encoding, table: &mut [u64], count: usize)
    requires { Room (flat_from e s.now 0) table.old count }
    ensures { table.new
        ≡ numbers_of (flat_from e s.now 0) ++ zeros (length table.old - 3 * count) }
{
    let mut c = Cursor { at: 0 };
    for i in 0..count {
        let Some(r) = c.next_reference(s, e) else {
            return;
        };
        let target = r.target;
        let next = r.next;
        table[3 * i] = r.place as u64;
        table[3 * i + 1] = target.0;
        table[3 * i + 2] = r.width as u64;
        c = next;
    }
}
