// The root test of an entry: what is live by itself, then over the attributes of an entry. ranges_has_live_entry,
// location_expr_live and is_root have the names of their originals in gc.rs.
ghost use Rattle.std.specs.Prelude.{◌≡◌, Some};
ghost use Rattle.marking.specs.Roots.{turn_of, range_entry, older_live, range_pair, pairs_live, operation_live};
ghost use Rattle.marking.specs.Roots.{location_live, low_pc, low_pcs, locations, other_ranges, ranges_by, first_ranges};
ghost use Rattle.readers.specs.EntryAttributes.{entry_values};
ghost use Rattle.marking.specs.Roots.{root_test, base_after};

pub use crate::addresses::Verdict;
use crate::addresses::{is_tombstone, lookup};
use crate::named::next_named;
use crate::setting::Setting;
use readers::abbreviations::SpecStep;
use readers::attributes::Attribute;
use readers::codes::{
    DW_AT_location, DW_AT_low_pc, DW_AT_ranges, DW_FORM_GNU_addr_index, DW_FORM_addr,
    DW_FORM_addrx, DW_FORM_addrx1, DW_FORM_addrx4, DW_FORM_exprloc, DW_FORM_rnglistx,
    DW_FORM_sec_offset, DW_RLE_base_address, DW_RLE_base_addressx, DW_RLE_offset_pair,
    DW_RLE_startx_length, DW_TAG_compile_unit, DW_TAG_subprogram, DW_TAG_variable,
};
use readers::cursor::{Cursor, Encoding};
use readers::entry_attributes::EntryAttribute;
use readers::fields::Operands;
use readers::layouts::{ROW_ADDRESS, ROW_ADDRESS_ADDRESS, ROW_ADDRESS_INDEX};
use readers::lists::{list_offset, list_start};
use readers::operations::{ListEntry, ListStep, Operation};
use readers::refusal::{Cause, Refusal};

// ---- an address, a list, an expression

// What an entry of a range list does: the list goes on, and whether its latest base is dead; or it is decided.
#[derive(Clone, Copy)]
pub enum RangeTurn {
    On(bool),
    Decided(Verdict),
}

// An entry of a range list, whose latest base was dead or not: one turn of gc.rs's `rnglist_has_live_entry`, whose loop
// is in first_ranges.
pub fn range_entry(
    table: &[u8],
    dead: bool,
    x: ListEntry,
    e: Encoding,
) -> Result<RangeTurn, Refusal>
    ensures { result ≡ turn_of (range_entry e table.now dead x) }
{
    let first = x.first;
    let kind = x.kind;
    if kind == DW_RLE_base_addressx {
        return match lookup(table, first.value)? {
            Verdict::Live => Ok(RangeTurn::On(false)),
            Verdict::Dead => Ok(RangeTurn::On(true)),
        };
    }
    if kind <= DW_RLE_startx_length {
        return match lookup(table, first.value)? {
            Verdict::Live => Ok(RangeTurn::Decided(Verdict::Live)),
            Verdict::Dead => Ok(RangeTurn::On(dead)),
        };
    }
    if kind == DW_RLE_offset_pair {
        if dead {
            return Ok(RangeTurn::On(dead));
        }
        return Ok(RangeTurn::Decided(Verdict::Live));
    }
    let left_out = is_tombstone(first.value, e.address_size);
    if kind == DW_RLE_base_address {
        return Ok(RangeTurn::On(left_out));
    }
    if left_out {
        return Ok(RangeTurn::On(dead));
    }
    Ok(RangeTurn::Decided(Verdict::Live))
}

// The older test of a range list of version 5: base_address is skipped, every other entry is live.
pub fn ranges_has_live_entry(ranges: &[u8], start: Cursor, e: Encoding) -> Result<Verdict, Refusal>
    ensures { result ≡ older_live e ranges.now (Some start) }
{
    let mut c = start;
    // No for: the reader moves the cursor on.
    loop {
        match c
            .list_entry(ranges, false, e)
            .ok_or(Refusal(Cause::ListOrExpression))?
        {
            ListStep::Entry(x) => {
                if x.kind != DW_RLE_base_address {
                    return Ok(Verdict::Live);
                }
                c = x.next;
            }
            ListStep::End => {
                return Ok(Verdict::Dead);
            }
        }
    }
}

// A pair of .debug_ranges, where the latest base was dead or not: 0 and 0 end the list, a begin of all ones makes a new
// base; any other is live unless the base or its begin is a tombstone. One turn of gc.rs's `ranges_has_live_entry` in
// version 4.
pub fn range_pair(dead: bool, r: Operands, e: Encoding) -> Result<RangeTurn, Refusal>
    ensures { result ≡ turn_of (range_pair e dead r) }
{
    let first = r.first;
    let second = r.second;
    let begin = first.value;
    let end = second.value;
    let begin_dead = is_tombstone(begin, e.address_size);
    if begin == 0 {
        if end == 0 {
            return Ok(RangeTurn::Decided(Verdict::Dead));
        }
    } else if begin_dead {
        return Ok(RangeTurn::On(is_tombstone(end, e.address_size)));
    }
    if dead || begin_dead {
        return Ok(RangeTurn::On(dead));
    }
    Ok(RangeTurn::Decided(Verdict::Live))
}

// The test of a range list of version 4, by its pairs.
pub fn pairs_live(ranges: &[u8], start: Cursor, e: Encoding) -> Result<Verdict, Refusal>
    ensures { result ≡ pairs_live e ranges.now (Some start) }
{
    let mut c = start;
    let mut base_dead = false;
    // No for: the reader moves the cursor on.
    while c.at < ranges.len() {
        let r = c
            .row(ranges, ROW_ADDRESS_ADDRESS, e)
            .ok_or(Refusal(Cause::ListOrExpression))?;
        let third = r.third;
        match range_pair(base_dead, r, e)? {
            RangeTurn::On(flag) => {
                base_dead = flag;
                c = third.next();
            }
            RangeTurn::Decided(found) => {
                return Ok(found);
            }
        }
    }
    Ok(Verdict::Dead)
}

// What an operation of a location says: an index of the address table what the table says of it; an address, where
// fixed addresses count, that it is live unless it is a tombstone; any other operation, and an address where they do
// not count, nothing, as a dead index does.
pub fn operation_live(
    op: Operation,
    table: &[u8],
    fixed_addresses: bool,
    e: Encoding,
) -> Result<Verdict, Refusal>
    ensures { result ≡ operation_live e fixed_addresses table.now op }
{
    let first = op.first;
    if op.row == ROW_ADDRESS_INDEX {
        return lookup(table, first.value);
    }
    if fixed_addresses && op.row == ROW_ADDRESS && !is_tombstone(first.value, e.address_size) {
        return Ok(Verdict::Live);
    }
    Ok(Verdict::Dead)
}

// Whether a variable's location holds a live index of the address table or, where fixed addresses count, an address
// that is no tombstone. It is read to its end; nested entry values are stepped over.
pub fn location_expr_live(
    s: &[u8],
    table: &[u8],
    fixed_addresses: bool,
    e: Encoding,
) -> Result<Verdict, Refusal>
    ensures { result ≡ location_live e fixed_addresses table.now s.now }
{
    let mut c = Cursor { at: 0 };
    let mut live = false;
    // No for: the reader moves the cursor on.
    while c.at < s.len() {
        let op = c.operation(s, e).ok_or(Refusal(Cause::ListOrExpression))?;
        let next = op.next;
        match operation_live(op, table, fixed_addresses, e)? {
            Verdict::Live => {
                live = true;
            }
            Verdict::Dead => {}
        }
        c = next;
    }
    if live {
        return Ok(Verdict::Live);
    }
    Ok(Verdict::Dead)
}

// A low_pc: an index asks the table, an address the tombstone test, any other form is live.
pub fn low_pc(v: Attribute, table: &[u8], e: Encoding) -> Result<Verdict, Refusal>
    ensures { result ≡ low_pc e table.now v }
{
    let field = v.field;
    let form = v.form;
    if form == DW_FORM_addr {
        if is_tombstone(field.value, e.address_size) {
            return Ok(Verdict::Dead);
        }
        return Ok(Verdict::Live);
    }
    let indexed = form == DW_FORM_addrx
        || (form >= DW_FORM_addrx1 && form <= DW_FORM_addrx4)
        || form == DW_FORM_GNU_addr_index;
    if !indexed {
        return Ok(Verdict::Live);
    }
    lookup(table, field.value)
}

// ---- over the attributes of an entry

// Each low_pc of an entry in turn.
pub fn low_pcs(
    unit: &[u8],
    abbreviations: &[u8],
    specs: Cursor,
    values: Cursor,
    table: &[u8],
    e: Encoding,
) -> Result<Verdict, Refusal>
    ensures { let attributes = entry_values e abbreviations.now specs.at unit.now values.at in
        result ≡ low_pcs e table.now attributes }
{
    let mut p = specs;
    let mut c = values;
    // No for: two cursors move, as their readers say.
    loop {
        let Some(a) = next_named(unit, abbreviations, p, c, DW_AT_low_pc, e) else {
            return Ok(Verdict::Dead);
        };
        let v = a.value;
        let next = a.next;
        let past = a.values;
        match low_pc(v, table, e)? {
            Verdict::Live => {
                return Ok(Verdict::Live);
            }
            Verdict::Dead => {}
        }
        c = past;
        p = next;
    }
}

// Each location of an entry in turn. One of no bytes is dead.
pub fn locations_live(
    unit: &[u8],
    abbreviations: &[u8],
    specs: Cursor,
    values: Cursor,
    table: &[u8],
    fixed_addresses: bool,
    e: Encoding,
) -> Result<Verdict, Refusal>
    ensures { let attributes = entry_values e abbreviations.now specs.at unit.now values.at in
        result ≡ locations e fixed_addresses table.now unit.now attributes }
{
    let mut p = specs;
    let mut c = values;
    // No for: two cursors move, as their readers say.
    loop {
        let Some(a) = next_named(unit, abbreviations, p, c, DW_AT_location, e) else {
            return Ok(Verdict::Dead);
        };
        let v = a.value;
        let field = v.field;
        let next = a.next;
        let past = a.values;
        if v.form == DW_FORM_exprloc {
            match location_expr_live(field.expression(unit), table, fixed_addresses, e)? {
                Verdict::Live => {
                    return Ok(Verdict::Live);
                }
                Verdict::Dead => {}
            }
        }
        c = past;
        p = next;
    }
}

// Ranges that are not in rnglistx: a section offset from the base, in version 4 by the pairs there, else by the older
// test; what can't be resolved, and any other form, is live.
pub fn other_ranges(
    v: Attribute,
    ranges: &[u8],
    ranges_base: u64,
    e: Encoding,
) -> Result<Verdict, Refusal>
    ensures { result ≡ other_ranges e ranges.now ranges_base v }
{
    let field = v.field;
    if v.form != DW_FORM_sec_offset {
        return Ok(Verdict::Live);
    }
    let len = ranges.len() as u64;
    if ranges_base > len {
        return Ok(Verdict::Live);
    }
    if field.value > len - ranges_base {
        return Ok(Verdict::Live);
    }
    let at = ranges_base + field.value;
    let Some(start) = list_start(ranges, at) else {
        return Ok(Verdict::Live);
    };
    if e.version == 4 {
        return pairs_live(ranges, start, e);
    }
    ranges_has_live_entry(ranges, start, e)
}

// The first ranges attribute of an entry. Its list is read as gc.rs's `rnglist_has_live_entry` does, entry by entry:
// what decides it leaves the list and the attributes with the verdict.
pub fn first_ranges(
    unit: &[u8],
    abbreviations: &[u8],
    specs: Cursor,
    values: Cursor,
    ranges: &[u8],
    table: &[u8],
    ranges_base: u64,
    rnglists_base: u64,
    e: Encoding,
) -> Result<Verdict, Refusal>
    ensures { let lists = ranges_by ranges.now table.now ranges_base rnglists_base in
        let attributes = entry_values e abbreviations.now specs.at unit.now values.at in
        result ≡ first_ranges e lists attributes }
{
    let mut p = specs;
    let mut c = values;
    let mut verdict = Ok(Verdict::Dead);
    // No for: two cursors move, as their readers say; in a list one.
    'attributes: loop {
        let Some(step) = p.attribute_spec(abbreviations) else {
            break 'attributes;
        };
        match step {
            SpecStep::Attribute(a) => {
                if a.name == DW_AT_ranges {
                    let Some(v) = c.attribute(unit, a.name, a.form, e) else {
                        break 'attributes;
                    };
                    let field = v.field;
                    if v.form != DW_FORM_rnglistx {
                        return other_ranges(v, ranges, ranges_base, e);
                    }
                    let Some(start) = list_offset(ranges, rnglists_base, field.value, e) else {
                        return Ok(Verdict::Live);
                    };
                    let mut place = start;
                    let mut dead = false;
                    loop {
                        match place
                            .list_entry(ranges, false, e)
                            .ok_or(Refusal(Cause::ListOrExpression))?
                        {
                            ListStep::Entry(x) => {
                                let after = x.next;
                                match range_entry(table, dead, x, e)? {
                                    RangeTurn::On(flag) => {
                                        dead = flag;
                                        place = after;
                                    }
                                    RangeTurn::Decided(found) => {
                                        // No return: the labelled loop is document 01's form.
                                        verdict = Ok(found);
                                        break 'attributes;
                                    }
                                }
                            }
                            ListStep::End => {
                                return Ok(Verdict::Dead);
                            }
                        }
                    }
                }
                let next = a.next;
                let Some(past) = c.past_attribute(unit, a.name, a.form, e) else {
                    break 'attributes;
                };
                c = past;
                p = next;
            }
            SpecStep::Last(_) => {
                break 'attributes;
            }
        }
    }
    verdict
}

// The root test of an entry with a tag (gc.rs: `is_root`): a subprogram by its low_pc and its ranges, a variable by its
// location; other tags never. Numbers are read by the encoding; of the setting the ranges base counts, and whether fixed
// addresses do.
pub fn is_root(
    unit: &[u8],
    abbreviations: &[u8],
    specs: Cursor,
    values: Cursor,
    tag: u64,
    ranges: &[u8],
    table: &[u8],
    setting: Setting,
    rnglists_base: u64,
    e: Encoding,
) -> Result<Verdict, Refusal>
    ensures { let lists = ranges_by ranges.now table.now setting.ranges_base rnglists_base in
        let attributes = entry_values e abbreviations.now specs.at unit.now values.at in
        result ≡ root_test e lists setting.fixed_addresses unit.now tag attributes }
{
    if tag == DW_TAG_subprogram {
        return match low_pcs(unit, abbreviations, specs, values, table, e)? {
            Verdict::Live => Ok(Verdict::Live),
            Verdict::Dead => first_ranges(
                unit,
                abbreviations,
                specs,
                values,
                ranges,
                table,
                setting.ranges_base,
                rnglists_base,
                e,
            ),
        };
    }
    if tag == DW_TAG_variable {
        return locations_live(
            unit,
            abbreviations,
            specs,
            values,
            table,
            setting.fixed_addresses,
            e,
        );
    }
    Ok(Verdict::Dead)
}

// A list base after an entry with a tag: a compile unit's own attribute of that name in sec_offset replaces it; of
// several the last counts.
pub fn base_after(
    unit: &[u8],
    abbreviations: &[u8],
    specs: Cursor,
    values: Cursor,
    tag: u64,
    name: u64,
    base: u64,
    e: Encoding,
) -> u64
    ensures { let attributes = entry_values e abbreviations.now specs.at unit.now values.at in
        result ≡ base_after name base tag attributes }
{
    if tag != DW_TAG_compile_unit {
        return base;
    }
    let mut p = specs;
    let mut c = values;
    let mut latest = base;
    // No for: two cursors move, as their readers say.
    loop {
        let Some(a) = next_named(unit, abbreviations, p, c, name, e) else {
            return latest;
        };
        let v = a.value;
        let field = v.field;
        let next = a.next;
        let past = a.values;
        if v.form == DW_FORM_sec_offset {
            latest = field.value;
        }
        c = past;
        p = next;
    }
}
