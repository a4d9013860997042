// The marks of a unit: its references resolved from offsets to entries, and marked.
ghost use Rattle.std.specs.Prelude.{◌≡◌, ◌+◌, ◌*◌, ◌-◌, ◌≤◌, List, length, take, drop};
ghost use Rattle.readers.specs.Choice.{zeros, put};
ghost use Rattle.marking.specs.KeepList.{keep_in};
ghost use Rattle.marking.specs.Analysis.{EntryRow, analysed, sections, header_by, analysis_of};
ghost use Rattle.marking.specs.Columns.{pad_to, column, offsets_in, parents_in, roots_in, ends_in, names_in, unit_rooms};
ghost use Rattle.marking.specs.Columns.{index_after};
ghost use Rattle.marking.specs.Resolution.{entry_from, pairs_of_entry, pairs_in, marks_in, unit_marks};
ghost use Rattle.marking.specs.Inner.Resolution.{as_entry, Searched, ResolveInput, ReferenceColumns, Resolvable, UnitColumns, Markable};

use crate::analysis::{Analysis, analyse};
use crate::marks::mark_with;
use crate::setting::Setting;
use readers::header::UnitHeader;
use readers::offsets::{EntryIndex, UnitOffset};
use readers::refusal::Refusal;
use readers::tables::{clear, clear_bytes, clear_indexes};

// What marking a unit counts: its entries, and those that are kept.
#[derive(Clone, Copy)]
pub struct UnitMarks {
    pub entries: usize,
    pub kept: usize,
}

// The header of a section's first unit, as it was read, and the marks of its entries.
#[derive(Clone, Copy)]
pub struct UnitMarking {
    pub header: Result<Option<UnitHeader>, Refusal>,
    pub marks: Result<UnitMarks, Refusal>,
}

// The entry that starts at an offset, among those of entries in ascending order.
fn find_entry(offsets: &[u64], target: UnitOffset) -> Option<EntryIndex>
    requires { Searched offsets.now (length offsets.now) }
    ensures { result ≡ as_entry (entry_from 0 offsets.now target.0) }
{
    match offsets.binary_search(&target.0) {
        Ok(i) => Some(EntryIndex(i as u64)),
        Err(_) => None,
    }
}

// ---- hints of where an entry stands: entry numbers by shifted offset. Each is tested before it is used.

// The place of an offset among the hints.
fn bucket(offset: UnitOffset, shift: u32) -> usize {
    (offset.0 >> (shift % 64)) as usize
}

// How far offsets up to a last one are shifted so that they are places of a table of so many numbers.
fn shift_for(last: u64, room: usize) -> u32 {
    for shift in 0..63 {
        if ((last >> shift) as usize) < room {
            return shift;
        }
    }
    63
}

// A hint into its place, if the table has it.
fn put_hint(hints: &mut [u32], at: usize, hint: u32) {
    if let Some(place) = hints.get_mut(at) {
        *place = hint;
    }
}

// The numbers of the entries that 32 bits have room for, each in the bucket of its offset; of several the last stays.
fn fill_hints(offsets: &[u64], hints: &mut [u32], shift: u32) {
    for i in 0..offsets.len().min(0x1_0000_0000) {
        put_hint(hints, bucket(UnitOffset(offsets[i]), shift), i as u32);
    }
}

// Where the hints say that an entry stands that starts at an offset, or a few places before.
fn guess(offsets: &[u64], target: UnitOffset, hints: &[u32], shift: u32) -> usize {
    let hint = hints.get(bucket(target, shift));
    let mut i = hint.map_or(offsets.len(), |hint| *hint as usize);
    if i >= offsets.len() {
        return i;
    }
    for _ in 0..8 {
        if offsets[i] <= target.0 || i == 0 {
            return i;
        }
        i -= 1;
    }
    i
}

// The entry that starts at an offset, as find_entry has it; looked for first where the hints say.
fn find_hinted(offsets: &[u64], target: UnitOffset, hints: &[u32], shift: u32) -> Option<EntryIndex>
    requires { Searched offsets.now (length offsets.now) }
    ensures { result ≡ as_entry (entry_from 0 offsets.now target.0) }
{
    let i = guess(offsets, target, hints, shift);
    if i < offsets.len() && offsets[i] == target.0 {
        return Some(EntryIndex(i as u64));
    }
    find_entry(offsets, target)
}

// The pairs of an entry's references, from a place of the pairs on; one that names no entry makes none.
fn resolve_entry(
    offsets: &[u64],
    names: &[u64],
    holder: EntryIndex,
    pairs: &mut [u64],
    at: usize,
    hints: &[u32],
    shift: u32,
) -> usize
    requires { ResolveInput offsets.now (length offsets.now) names.now 0 (length names.now) pairs.old at }
    ensures { let found = pairs_of_entry offsets.now holder.0 names.now in
        (2 * result ≡ 2 * at + length found) × (pairs.new ≡ put pairs.old (2 * at) found) }
{
    let mut place = at;
    for name in names {
        match find_hinted(offsets, UnitOffset(*name), hints, shift) {
            Some(named) => {
                pairs[2 * place] = holder.0;
                pairs[2 * place + 1] = named.0;
                place += 1;
            }
            None => {}
        }
    }
    place
}

// The pairs of all references.
fn resolve(
    offsets: &[u64],
    reference_ends: &[u64],
    entries: usize,
    targets: &[u64],
    pairs: &mut [u64],
    hints: &[u32],
    shift: u32,
) -> usize
    requires { Resolvable offsets.now reference_ends.now entries targets.now pairs.old }
    ensures answer { (rows : List EntryRow)
        → ReferenceColumns rows offsets.now reference_ends.now entries
        targets.now pairs.old
        → 2 * result ≡ length (pairs_in rows) }
    ensures filled { (rows : List EntryRow)
        → ReferenceColumns rows offsets.now reference_ends.now entries
        targets.now pairs.old
        → pairs.new ≡ pad_to (length pairs.old) (pairs_in rows) }
{
    let starts = &offsets[..entries];
    let mut place: usize = 0;
    let mut from: usize = 0;
    for i in (0..entries as u64).map(EntryIndex) {
        let to = reference_ends[i.0 as usize] as usize;
        let names = &targets[from..to];
        place = resolve_entry(starts, names, i, pairs, place, hints, shift);
        from = to;
    }
    place
}

// The first places of a table made zeros.
fn clear_first(table: &mut [u32], most: usize) {
    let n = most.min(table.len());
    table[..n].fill(0);
}

// How many hints there are: two an entry, as far as the work column has room.
fn hint_room(work: usize, entries: usize) -> usize {
    work.min(entries.saturating_mul(2))
}

// The pairs of all references, with hints in the work column; the hints are zeros again after.
fn resolve_by_hints(
    offsets: &[u64],
    reference_ends: &[u64],
    entries: usize,
    targets: &[u64],
    pairs: &mut [u64],
    work: &mut [u32],
) -> usize
    requires { Resolvable offsets.now reference_ends.now entries targets.now pairs.old }
    ensures answer { (rows : List EntryRow)
        → ReferenceColumns rows offsets.now reference_ends.now entries
        targets.now pairs.old
        → 2 * result ≡ length (pairs_in rows) }
    ensures filled { (rows : List EntryRow)
        → ReferenceColumns rows offsets.now reference_ends.now entries
        targets.now pairs.old
        → pairs.new ≡ pad_to (length pairs.old) (pairs_in rows) }
{
    let room = hint_room(work.len(), entries);
    let starts = &offsets[..entries];
    let last = starts.last().map_or(0, |offset| *offset);
    let shift = shift_for(last, room);
    fill_hints(starts, work, shift);
    let n = resolve(
        offsets,
        reference_ends,
        entries,
        targets,
        pairs,
        work,
        shift,
    );
    clear_first(work, room);
    n
}

// The pairs and the marks of entries whose columns an analysis filled.
fn mark_rows(
    offsets: &[u64],
    parents: &[u64],
    roots: &[u8],
    reference_ends: &[u64],
    entries: usize,
    marks: &mut [u8],
    targets: &[u64],
    pairs: &mut [u64],
    work: &mut [u32],
) -> Result<UnitMarks, Refusal>
    requires { Markable offsets.now parents.now roots.now reference_ends.now entries marks.old
        targets.now pairs.old }
    ensures answer { (rows : List EntryRow)
        → UnitColumns rows offsets.now parents.now roots.now
        reference_ends.now entries
        marks.old targets.now pairs.old
        → result ≡ unit_marks (analysed rows) }
    ensures marks { (rows : List EntryRow)
        → UnitColumns rows offsets.now parents.now roots.now
        reference_ends.now entries
        marks.old targets.now pairs.old
        → marks.new ≡ pad_to (length marks.old) (marks_in rows) }
    ensures pairs { (rows : List EntryRow)
        → UnitColumns rows offsets.now parents.now roots.now
        reference_ends.now entries
        marks.old targets.now pairs.old
        → pairs.new ≡ pad_to (length pairs.old) (pairs_in rows) }
    ensures work { work.new ≡ zeros (length work.old) }
{
    let n = resolve_by_hints(offsets, reference_ends, entries, targets, pairs, work);
    let m = 2 * n;
    let marked = mark_with(
        &parents[..entries],
        &pairs[..m],
        &roots[..entries],
        &mut marks[..entries],
        work,
        reference_ends,
    );
    clear_indexes(work);
    let kept = marked?;
    Ok(UnitMarks { entries, kept })
}

// Marks the entries of the first unit of a section: 1 dead, 2 retained, 3 live. The columns are those of `analyse`,
// with the marks among those of the entry table and the pairs among those of the reference table, two numbers each. A
// refusal is the analysis's, and leaves zeros. The work column is scratch, zeros on every answer; its length, best two
// numbers an entry, changes the time alone.
pub fn mark_unit<'a>(
    section: &[u8],
    abbreviations: &[u8],
    locations: &[u8],
    ranges: &'a [u8],
    addresses: &[u8],
    debug_ranges: &'a [u8],
    tags: &[u8],
    treatments: &[u8],
    setting: Setting,
    index: &mut [u64],
    offsets: &mut [u64],
    parents: &mut [u64],
    roots: &mut [u8],
    reference_ends: &mut [u64],
    marks: &mut [u8],
    targets: &mut [u64],
    pairs: &mut [u64],
    work: &mut [u32],
) -> UnitMarking
    ensures { let lent = sections abbreviations.now locations.now ranges.now
        addresses.now debug_ranges.now (keep_in tags.now treatments.now)
        setting in
        let room = unit_rooms (length marks.old) (length pairs.old)
        (length offsets.old) (length parents.old) (length roots.old)
        (length reference_ends.old) (length targets.old) in
        let found = analysis_of lent section.now room in
        let header = header_by lent section.now in
        ((result.header ≡ header) × (result.marks ≡ unit_marks found))
        × ((index.new ≡ index_after abbreviations.now header (length index.old))
        × ((offsets.new ≡ column offsets_in (length offsets.old) found)
        × ((parents.new ≡ column parents_in (length parents.old) found)
        × ((roots.new ≡ column roots_in (length roots.old) found)
        × ((reference_ends.new ≡ column (ends_in 0) (length reference_ends.old) found)
        × ((marks.new ≡ column marks_in (length marks.old) found)
        × ((targets.new ≡ column names_in (length targets.old) found)
        × ((pairs.new ≡ column pairs_in (length pairs.old) found)
        × (work.new ≡ zeros (length work.old)))))))))) }
{
    clear(pairs);
    clear_bytes(marks);
    clear_indexes(work);
    let unit = analyse(
        section,
        abbreviations,
        locations,
        ranges,
        addresses,
        debug_ranges,
        tags,
        treatments,
        setting,
        marks.len(),
        pairs.len() / 2,
        index,
        offsets,
        parents,
        roots,
        reference_ends,
        targets,
    );
    let header = unit.header;
    let analysis = unit.analysis;
    match analysis {
        Err(n) => UnitMarking {
            header,
            marks: Err(n),
        },
        Ok(counts) => {
            let entries = counts.entries;
            let answer = mark_rows(
                offsets,
                parents,
                roots,
                reference_ends,
                entries,
                marks,
                targets,
                pairs,
                work,
            );
            UnitMarking {
                header,
                marks: answer,
            }
        }
    }
}
