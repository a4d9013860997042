// Thins the first unit of a section (gc.rs: `gc_debug_info`): analysis, marks, index lists, map, output.
ghost use Rattle.std.specs.Prelude.{◌≡◌, List, [], length};
ghost use Rattle.readers.specs.Choice.{zeros};
ghost use Rattle.readers.specs.Abbreviations.{Placed};
ghost use Rattle.marking.specs.KeepList.{keep_in};
ghost use Rattle.marking.specs.Analysis.{Sections, Rooms, EntryRow, sections};
ghost use Rattle.rewriting.specs.Places.{kept_from};
ghost use Rattle.rewriting.specs.Rewriting.{Unit as Unit', unit_of, Lists, Room, items_in, lists_of, no_lists, untouched, rewrite_of, collect_of};
ghost use Rattle.rewriting.specs.Inner.IndexLists.{PassInput};
ghost use Rattle.rewriting.specs.Inner.Emission.{ListsLent};
ghost use Rattle.rewriting.specs.Outputs.{room_by, room_of, answer_for, map_for, list_for, output_for, ranges_in, locations_in, strings_in};
ghost use Rattle.rewriting.specs.Inner.Leaving.{Answers, Tabled, Blank, marked_of, ListsAnswer, Writable, WriteAnswer};
ghost use Rattle.rewriting.specs.Inner.Leaving.{left_by, task_of, MarkedTables};

use crate::emit_unit::{emit_dies, emit_header};
use crate::indices::{is_short, settle, sorted_lists};
use crate::kept_items::{Reading, fill_ends};
use crate::map::PLACE_SIZE;
use crate::offset_pass::place_items;
use crate::work_column::fill_work;
use marking::analysis::clear_columns;
use marking::setting::Setting;
use marking::units::{UnitMarking, UnitMarks, mark_unit};
use readers::codes::{DW_AT_location, DW_AT_ranges};
use readers::header::{UnitHeader, unit_part};
use readers::offsets::UnitOffset;
use readers::refusal::{Cause, Refusal};
use readers::tables::{clear, clear_bytes, clear_indexes};

// What an accepted answer counts: entries, kept ones, map places, output bytes (both 0 where untouched), and the numbers
// of each list.
#[derive(Clone, Copy)]
pub struct Counts {
    pub entries: usize,
    pub kept: usize,
    pub places: usize,
    pub bytes: usize,
    pub ranges: Option<usize>,
    pub locations: Option<usize>,
    pub strings: Option<usize>,
}

// An answer that is no refusal.
#[derive(Clone, Copy)]
pub enum Collected {
    Untouched(Counts),
    Rewritten(Counts),
}

// Makes map, lists and output zeros.
fn clear_outputs(
    map: &mut [u8],
    ranges: &mut [u8],
    locations: &mut [u8],
    strings: &mut [u8],
    out: &mut [u8],
)
    ensures map { map.new ≡ zeros (length map.old) }
    ensures ranges { ranges.new ≡ zeros (length ranges.old) }
    ensures locations { locations.new ≡ zeros (length locations.old) }
    ensures strings { strings.new ≡ zeros (length strings.old) }
    ensures out { out.new ≡ zeros (length out.old) }
{
    clear_bytes(map);
    clear_bytes(ranges);
    clear_bytes(locations);
    clear_bytes(strings);
    clear_bytes(out);
}

// Makes map, lists and output zeros after a refusal.
fn clear_refused(
    answer: &Result<Collected, Refusal>,
    map: &mut [u8],
    ranges: &mut [u8],
    locations: &mut [u8],
    strings: &mut [u8],
    out: &mut [u8],
)
    ensures { (map.new ≡ left_by answer.now map.old)
        × (ranges.new ≡ left_by answer.now ranges.old)
        × (locations.new ≡ left_by answer.now locations.old)
        × (strings.new ≡ left_by answer.now strings.old)
        × (out.new ≡ left_by answer.now out.old) }
{
    if answer.is_err() {
        clear_outputs(map, ranges, locations, strings, out);
    }
}

// Makes the tables zeros.
fn clear_tables(
    index: &mut [u64],
    offsets: &mut [u64],
    parents: &mut [u64],
    roots: &mut [u8],
    ends: &mut [u64],
    marks: &mut [u8],
    targets: &mut [u64],
    pairs: &mut [u64],
    work: &mut [u32],
)
    ensures index { index.new ≡ zeros (length index.old) }
    ensures offsets { offsets.new ≡ zeros (length offsets.old) }
    ensures parents { parents.new ≡ zeros (length parents.old) }
    ensures roots { roots.new ≡ zeros (length roots.old) }
    ensures ends { ends.new ≡ zeros (length ends.old) }
    ensures marks { marks.new ≡ zeros (length marks.old) }
    ensures targets { targets.new ≡ zeros (length targets.old) }
    ensures pairs { pairs.new ≡ zeros (length pairs.old) }
    ensures work { work.new ≡ zeros (length work.old) }
{
    clear(index);
    clear_columns(offsets, parents, roots, ends, targets);
    clear_bytes(marks);
    clear(pairs);
    clear_indexes(work);
}

// The counts of a unit's lists, where each has room.
#[derive(Clone, Copy)]
pub struct Listed {
    pub ranges: Option<usize>,
    pub locations: Option<usize>,
    pub strings: Option<usize>,
}

// The lists of a unit.
fn index_lists(
    unit: &[u8],
    abbreviations: &[u8],
    r: Reading,
    index: &[u64],
    parents: &[u64],
    ends: &[u64],
    marks: &[u8],
    first: UnitOffset,
    type_units: bool,
    range_list: &mut [u8],
    location_list: &mut [u8],
    string_list: &mut [u8],
) -> Option<Listed>
    ensures { (x : Sections) (u : Unit')
        → PassInput x u r abbreviations.now index.now unit.now parents.now
        ends.now marks.now first.0
        → first.0 ≡ u.header.first.0
        → range_list.old ≡ zeros (length range_list.old)
        → location_list.old ≡ zeros (length location_list.old)
        → string_list.old ≡ zeros (length string_list.old)
        → ListsAnswer (lists_of x u type_units (kept_from marks.now 0 [] (items_in x u)))
        (length range_list.old) (length location_list.old) (length string_list.old)
        result range_list.new location_list.new string_list.new }
{
    if type_units {
        return Some(Listed {
            ranges: None,
            locations: None,
            strings: None,
        });
    }
    let g = sorted_lists(
        unit,
        abbreviations,
        r,
        index,
        parents,
        ends,
        marks,
        first,
        range_list,
        location_list,
        string_list,
    );
    let ranges = settle(
        unit,
        abbreviations,
        r,
        index,
        first,
        DW_AT_ranges,
        g.ranges,
        range_list,
    );
    if is_short(ranges, range_list) {
        return None;
    }
    let locations = settle(
        unit,
        abbreviations,
        r,
        index,
        first,
        DW_AT_location,
        g.locations,
        location_list,
    );
    if is_short(locations, location_list) {
        return None;
    }
    let strings = settle(
        unit,
        abbreviations,
        r,
        index,
        first,
        0,
        g.strings,
        string_list,
    );
    if is_short(strings, string_list) {
        return None;
    }
    Some(Listed {
        ranges,
        locations,
        strings,
    })
}

// Map and output of a unit where something is dead. The work column, whatever it holds, is filled with the bounds of the
// map's depths and with hints.
fn write_unit(
    unit: &[u8],
    abbreviations: &[u8],
    r: Reading,
    index: &[u64],
    parents: &[u64],
    ends: &[u64],
    marks: &[u8],
    first: UnitOffset,
    entries: usize,
    kept: usize,
    range_list: &[u8],
    ranges: Option<usize>,
    location_list: &[u8],
    locations: Option<usize>,
    string_list: &[u8],
    strings: Option<usize>,
    work: &mut [u32],
    map: &mut [u8],
    out: &mut [u8],
) -> Result<Collected, Refusal>
    ensures { (x : Sections) (u : Unit') (lists : Lists) (room : Room)
        → PassInput x u r abbreviations.now index.now unit.now parents.now
        ends.now marks.now first.0
        → ListsLent lists range_list.now ranges location_list.now locations
        string_list.now strings
        → Writable u room unit.now first.0 map.old out.old
        → WriteAnswer (rewrite_of x room u entries kept lists (kept_from marks.now 0 [] (items_in x u)))
        result (length map.old) (length out.old) map.new out.new }
{
    let size = place_items(
        unit,
        abbreviations,
        r,
        index,
        parents,
        ends,
        marks,
        first,
        map,
    );
    if size.places > map.len() / PLACE_SIZE {
        return Err(Refusal(Cause::MapShort));
    }
    if size.bytes > out.len() {
        return Err(Refusal(Cause::OutputShort));
    }
    fill_work(
        map,
        size.places,
        range_list,
        ranges,
        location_list,
        locations,
        string_list,
        strings,
        work,
    );
    let at = emit_header(unit, first, size.bytes, r.encoding, out);
    emit_dies(
        unit,
        abbreviations,
        r,
        index,
        parents,
        ends,
        marks,
        first,
        map,
        size.places,
        work,
        range_list,
        ranges,
        location_list,
        locations,
        string_list,
        strings,
        &mut out[at..],
    )?;
    Ok(Collected::Rewritten(Counts {
        entries,
        kept,
        places: size.places,
        bytes: size.bytes,
        ranges,
        locations,
        strings,
    }))
}

// The unit of marked tables: the ends of its entries, lists, then map and output where something is dead.
fn rewrite_unit(
    section: &[u8],
    h: UnitHeader,
    abbreviations: &[u8],
    index: &[u64],
    parents: &[u64],
    ends: &mut [u64],
    marks: &[u8],
    entries: usize,
    kept: usize,
    type_units: bool,
    work: &mut [u32],
    map: &mut [u8],
    range_list: &mut [u8],
    location_list: &mut [u8],
    string_list: &mut [u8],
    out: &mut [u8],
) -> Result<Collected, Refusal>
    ensures { (x : Sections) (tables : Rooms) (ds : List Placed) (rows : List EntryRow)
        → Tabled x tables section.now h ds rows abbreviations.now index.now
        parents.now ends.old marks.now entries kept
        → Blank map.old range_list.old location_list.old
        string_list.old out.old
        → let room = room_by tables (length map.old) (length range_list.old)
        (length location_list.old) (length string_list.old) (length out.old) in
        Answers (marked_of x room type_units (unit_of h section.now ds) rows) result (length map.old)
        (length range_list.old) (length location_list.old)
        (length string_list.old) (length out.old)
        map.new range_list.new location_list.new string_list.new out.new }
{
    let encoding = h.encoding;
    let r = Reading {
        from: h.abbreviations,
        encoding,
    };
    let unit = unit_part(section, h);
    let first = h.first;
    fill_ends(unit, abbreviations, r, index, first, ends);
    let Listed {
        ranges,
        locations,
        strings,
    } = index_lists(
        unit,
        abbreviations,
        r,
        index,
        parents,
        ends,
        marks,
        first,
        type_units,
        range_list,
        location_list,
        string_list,
    )
    .ok_or(Refusal(Cause::IndexListShort))?;
    if kept == entries {
        return Ok(Collected::Untouched(Counts {
            entries,
            kept,
            places: 0,
            bytes: 0,
            ranges,
            locations,
            strings,
        }));
    }
    write_unit(
        unit,
        abbreviations,
        r,
        index,
        parents,
        ends,
        marks,
        first,
        entries,
        kept,
        range_list,
        ranges,
        location_list,
        locations,
        string_list,
        strings,
        work,
        map,
        out,
    )
}

// Untouched, without entries.
fn nothing() -> Result<Collected, Refusal>
    ensures { result ≡ answer_for (untouched 0 no_lists) }
{
    Ok(Collected::Untouched(Counts {
        entries: 0,
        kept: 0,
        places: 0,
        bytes: 0,
        ranges: None,
        locations: None,
        strings: None,
    }))
}

// A unit that has entries, to be thinned: its header, how many entries it has and how many of them are kept.
#[derive(Clone, Copy)]
pub struct Task {
    pub header: UnitHeader,
    pub entries: usize,
    pub kept: usize,
}

// What is to be done once a unit's entries are marked, if anything.
fn task_of(unit: UnitMarking) -> Result<Option<Task>, Refusal>
    ensures { result ≡ task_of unit.header unit.marks }
{
    let UnitMarks { entries, kept } = unit.marks?;
    if entries == 0 {
        return Ok(None);
    }
    let Some(header) = unit.header? else {
        return Ok(None);
    };
    Ok(Some(Task {
        header,
        entries,
        kept,
    }))
}

// The answer for marked tables.
fn collect_marked(
    section: &[u8],
    task: Result<Option<Task>, Refusal>,
    abbreviations: &[u8],
    index: &[u64],
    parents: &[u64],
    ends: &mut [u64],
    marks: &[u8],
    type_units: bool,
    work: &mut [u32],
    map: &mut [u8],
    range_list: &mut [u8],
    location_list: &mut [u8],
    string_list: &mut [u8],
    out: &mut [u8],
) -> Result<Collected, Refusal>
    ensures { (x : Sections) (tables : Rooms)
        → MarkedTables x tables section.now task abbreviations.now index.now
        parents.now ends.old marks.now
        → Blank map.old range_list.old location_list.old
        string_list.old out.old
        → let room = room_by tables (length map.old) (length range_list.old)
        (length location_list.old) (length string_list.old) (length out.old) in
        Answers (collect_of x room type_units section.now) result (length map.old)
        (length range_list.old) (length location_list.old)
        (length string_list.old) (length out.old)
        map.new range_list.new location_list.new string_list.new out.new }
{
    let Some(
        Task {
            header,
            entries,
            kept,
        },
    ) = task?
    else {
        return nothing();
    };
    rewrite_unit(
        section,
        header,
        abbreviations,
        index,
        parents,
        ends,
        marks,
        entries,
        kept,
        type_units,
        work,
        map,
        range_list,
        location_list,
        string_list,
        out,
    )
}

// The answer, with tables as they are left, and after a refusal also map, lists and output.
fn collect_unit<'a>(
    section: &[u8],
    abbreviations: &[u8],
    locations: &[u8],
    ranges: &'a [u8],
    addresses: &[u8],
    setting: Setting,
    type_units: bool,
    index: &mut [u64],
    offsets: &mut [u64],
    parents: &mut [u64],
    roots: &mut [u8],
    ends: &mut [u64],
    marks: &mut [u8],
    targets: &mut [u64],
    pairs: &mut [u64],
    work: &mut [u32],
    map: &mut [u8],
    range_list: &mut [u8],
    location_list: &mut [u8],
    string_list: &mut [u8],
    out: &mut [u8],
    debug_ranges: &'a [u8],
    tags: &[u8],
    treatments: &[u8],
) -> Result<Collected, Refusal>
    ensures { let x = sections abbreviations.now locations.now ranges.now
        addresses.now debug_ranges.now (keep_in tags.now treatments.now)
        setting in
        let room = room_of (length marks.old) (length pairs.old) (length offsets.old)
        (length parents.old) (length roots.old) (length ends.old)
        (length targets.old) (length map.old) (length range_list.old)
        (length location_list.old) (length string_list.old) (length out.old) in
        Answers (collect_of x room type_units section.now) result (length map.old)
        (length range_list.old) (length location_list.old)
        (length string_list.old) (length out.old)
        map.new range_list.new location_list.new string_list.new out.new }
{
    clear_outputs(map, range_list, location_list, string_list, out);
    let marked = mark_unit(
        section,
        abbreviations,
        locations,
        ranges,
        addresses,
        debug_ranges,
        tags,
        treatments,
        setting,
        index,
        offsets,
        parents,
        roots,
        ends,
        marks,
        targets,
        pairs,
        work,
    );
    let task = task_of(marked);
    collect_marked(
        section,
        task,
        abbreviations,
        index,
        parents,
        ends,
        marks,
        type_units,
        work,
        map,
        range_list,
        location_list,
        string_list,
        out,
    )
}

// Thins the first unit of a section, which is read with the other sections and the address table. A keep list, tags of
// two big-endian bytes with a treatment for each, 1 or 2, makes the entries of a tag roots or takes that from them. The
// map has 24 bytes a place (old offset, new offset, depth), a list 8 bytes a number, all big-endian. Refused with a
// number of documents 01 and 02; then map, lists and output are zeros. The tables are scratch, zeros on every answer:
// the index of the declarations, those of the entries (`offsets`, `parents`, `roots`, `ends`, `marks`) and of the
// references (`targets`, `pairs`), and the work column of the marking and of the emission's searches,
// best two numbers an entry. The lengths of the index and of the work column change the time alone.
pub fn collect<'a>(
    section: &[u8],
    abbreviations: &[u8],
    locations: &[u8],
    ranges: &'a [u8],
    addresses: &[u8],
    debug_ranges: &'a [u8],
    tags: &[u8],
    treatments: &[u8],
    setting: Setting,
    type_units: bool,
    index: &mut [u64],
    offsets: &mut [u64],
    parents: &mut [u64],
    roots: &mut [u8],
    ends: &mut [u64],
    marks: &mut [u8],
    targets: &mut [u64],
    pairs: &mut [u64],
    work: &mut [u32],
    map: &mut [u8],
    range_list: &mut [u8],
    location_list: &mut [u8],
    string_list: &mut [u8],
    out: &mut [u8],
) -> Result<Collected, Refusal>
    ensures { let x = sections abbreviations.now locations.now ranges.now
        addresses.now debug_ranges.now (keep_in tags.now treatments.now)
        setting in
        let room = room_of (length marks.old) (length pairs.old) (length offsets.old)
        (length parents.old) (length roots.old) (length ends.old)
        (length targets.old) (length map.old) (length range_list.old)
        (length location_list.old) (length string_list.old) (length out.old) in
        let answer = collect_of x room type_units section.now in
        (result ≡ answer_for answer)
        × (map.new ≡ map_for (length map.old) answer)
        × (range_list.new ≡ list_for ranges_in (length range_list.old) answer)
        × (location_list.new ≡ list_for locations_in (length location_list.old) answer)
        × (string_list.new ≡ list_for strings_in (length string_list.old) answer)
        × (out.new ≡ output_for (length out.old) answer)
        × (index.new ≡ zeros (length index.old))
        × (offsets.new ≡ zeros (length offsets.old))
        × (parents.new ≡ zeros (length parents.old))
        × (roots.new ≡ zeros (length roots.old))
        × (ends.new ≡ zeros (length ends.old))
        × (marks.new ≡ zeros (length marks.old))
        × (targets.new ≡ zeros (length targets.old))
        × (pairs.new ≡ zeros (length pairs.old))
        × (work.new ≡ zeros (length work.old)) }
{
    let answer = collect_unit(
        section,
        abbreviations,
        locations,
        ranges,
        addresses,
        setting,
        type_units,
        index,
        offsets,
        parents,
        roots,
        ends,
        marks,
        targets,
        pairs,
        work,
        map,
        range_list,
        location_list,
        string_list,
        out,
        debug_ranges,
        tags,
        treatments,
    );
    clear_tables(
        index, offsets, parents, roots, ends, marks, targets, pairs, work,
    );
    clear_refused(&answer, map, range_list, location_list, string_list, out);
    answer
}
