// The analysis of a unit: entry by entry, its roots and references, into lent columns.
ghost use Rattle.std.specs.Prelude.{◌≡◌, length, take};
ghost use Rattle.readers.specs.Choice.{zeros};
ghost use Rattle.readers.specs.Inner.Entries.{head_end};
ghost use Rattle.readers.specs.Header.{header_of};
ghost use Rattle.readers.specs.EntryAttributes.{entry_values};
ghost use Rattle.marking.specs.KeepList.{keep_in, keep_refusal, treatment_of, treated};
ghost use Rattle.marking.specs.Roots.{ranges_by, root_test};
ghost use Rattle.marking.specs.Analysis.{sections, ranges_for, rooms, root_of, names_of, unit_analysed, analysis_of};
ghost use Rattle.marking.specs.Analysis.{after_list, header_by};
ghost use Rattle.marking.specs.Columns.{offsets_in, parents_in, roots_in, ends_in, names_in, column, least, rooms_of};
ghost use Rattle.marking.specs.Columns.{index_after, answer_of};
ghost use Rattle.marking.specs.Inner.Lent.{keep_of, sections_with, sections_of};
ghost use Rattle.marking.specs.Inner.Columns.{AnalysisInput, Outcome, headed, refusal_of, entry_answer, entry_table, left_by, unit_found, root_number};

use crate::addresses::Verdict;
use crate::keep_list::{judge, treat, treatment};
use crate::references::{EntryScan, scan_live_die_attrs};
use crate::root_test::{base_after, is_root};
use crate::setting::Setting;
use readers::abbreviations::check_abbreviations;
use readers::codes::{DW_AT_loclists_base, DW_AT_rnglists_base};
use readers::cursor::{Cursor, Encoding};
use readers::entries::{EntryHead, HeadStep, Nesting};
use readers::header::{UnitHeader, unit_header, unit_part};
use readers::lists::list_base;
use readers::offsets::EntryIndex;
use readers::refusal::{Cause, Refusal};
use readers::tables::{clear, clear_bytes};

// What is found of an entry: 1 for a root, else 0, the place past its references in the table, and the cursor past it.
#[derive(Clone, Copy)]
pub struct EntryAnalysis {
    pub root: u8,
    pub to: usize,
    pub next: Cursor,
}

// What an analysis counts: entries and references.
#[derive(Clone, Copy)]
pub struct Analysis {
    pub entries: usize,
    pub references: usize,
}

// The header of a section's first unit, as it was read, and the analysis of its entries.
#[derive(Clone, Copy)]
pub struct UnitAnalysis {
    pub header: Result<Option<UnitHeader>, Refusal>,
    pub analysis: Result<Analysis, Refusal>,
}

// What entries are read by beside their unit: the other sections, with one section of range lists, a keep list, and what
// a call tells.
#[derive(Clone, Copy)]
struct Lent<'a> {
    abbreviations: &'a [u8],
    locations: &'a [u8],
    ranges: &'a [u8],
    addresses: &'a [u8],
    tags: &'a [u8],
    treatments: &'a [u8],
    setting: Setting,
}

// The number of a refusal of an entry: 4 where its values can't be read, which comes before any other.
fn refusal(unit: &[u8], abbreviations: &[u8], x: EntryHead, e: Encoding, n: Refusal) -> Refusal
    ensures { result ≡ refusal_of (head_end e abbreviations.now unit.now x) n }
{
    let declaration = x.declaration;
    let values = x.values;
    match values.past_values(unit, abbreviations, declaration.attributes, e) {
        Some(_) => n,
        None => Refusal(Cause::Entry),
    }
}

// Whether an entry is a root: its root test, which no treatment spares it, then the treatment of its tag.
fn root_of(
    unit: &[u8],
    x: EntryHead,
    lent: Lent<'_>,
    rnglists_base: u64,
    e: Encoding,
) -> Result<Verdict, Refusal>
    requires { keep_refusal (keep_of lent) ≡ 0 }
    ensures { let by = sections_of lent.entry in
        let lists = ranges_by by.ranges by.addresses by.setting.ranges_base rnglists_base in
        let attributes = entry_values e by.abbreviations x.declaration.attributes.at unit.now x.values.at in
        result ≡ treated (treatment_of by.keep x.declaration.tag)
        (root_test e lists by.setting.fixed_addresses unit.now x.declaration.tag attributes) }
{
    let declaration = x.declaration;
    let verdict = is_root(
        unit,
        lent.abbreviations,
        declaration.attributes,
        x.values,
        declaration.tag,
        lent.ranges,
        lent.addresses,
        lent.setting,
        rnglists_base,
        e,
    );
    treat(
        verdict,
        treatment(lent.tags, lent.treatments, declaration.tag),
    )
}

// A verdict as a row has it: 1 for a root, else 0.
fn root_number(verdict: Verdict) -> u8
    ensures { result ≡ root_number verdict }
{
    match verdict {
        Verdict::Live => 1,
        Verdict::Dead => 0,
    }
}

// Whether an entry is a root, then its references. The scan also finds where the entry ends. In its contract, and in that
// of `analyse_entries`, the range lists of the unit's version stand for both sections of them.
fn analyse_entry(
    unit: &[u8],
    x: EntryHead,
    lent: Lent<'_>,
    rnglists_base: u64,
    loclists_base: u64,
    e: Encoding,
    targets: &mut [u64],
    at: usize,
) -> Result<EntryAnalysis, Refusal>
    requires { keep_refusal (keep_of lent) ≡ 0 }
    ensures { let by = sections_of lent.entry in
        let end = head_end e by.abbreviations unit.now x in
        let root = root_of e by unit.now rnglists_base (headed x) in
        let names = names_of e by unit.now loclists_base (headed x) in
        (result ≡ entry_answer (length targets.old) at end root names)
        × (targets.new ≡ entry_table targets.old at root names) }
{
    let declaration = x.declaration;
    let specs = declaration.attributes;
    let values = x.values;
    let verdict = match root_of(unit, x, lent, rnglists_base, e) {
        Ok(verdict) => verdict,
        Err(n) => {
            return Err(refusal(unit, lent.abbreviations, x, e, n));
        }
    };
    let root = root_number(verdict);
    let scan = match scan_live_die_attrs(
        unit,
        lent.abbreviations,
        specs,
        values,
        lent.locations,
        loclists_base,
        e,
        targets,
        at,
    ) {
        Ok(scan) => scan,
        Err(n) => {
            return Err(refusal(unit, lent.abbreviations, x, e, n));
        }
    };
    let next = scan.end.ok_or(Refusal(Cause::Entry))?;
    Ok(EntryAnalysis {
        root,
        to: scan.place,
        next,
    })
}

// Entry by entry into cleared columns, with room for so many entries and references.
fn analyse_entries(
    unit: &[u8],
    lent: Lent<'_>,
    from: u64,
    index: &[u64],
    first: Cursor,
    e: Encoding,
    entry_room: usize,
    reference_room: usize,
    offsets: &mut [u64],
    parents: &mut [u64],
    roots: &mut [u8],
    reference_ends: &mut [u64],
    targets: &mut [u64],
) -> Result<Analysis, Refusal>
    requires { AnalysisInput lent.abbreviations.now index.now from unit.now entry_room reference_room
        offsets.old parents.old roots.old reference_ends.old targets.old (keep_of lent) }
    ensures { let by = sections_of lent.entry in
        let found = unit_analysed e by unit.now (rooms entry_room reference_room) from first.at in
        (result ≡ answer_of found)
        × Outcome found
        offsets.old parents.old roots.old reference_ends.old
        targets.old
        offsets.new parents.new roots.new reference_ends.new
        targets.new }
{
    let mut c = first;
    let mut count: usize = 0;
    let mut to: usize = 0;
    let mut nesting = Nesting::outside();
    let mut rnglists_base = list_base(e);
    let mut loclists_base = list_base(e);
    // No for: the reader moves the cursor on, and not every step is an entry.
    loop {
        match c
            .entry_head(unit, lent.abbreviations, from, index)
            .ok_or(Refusal(Cause::Entry))?
        {
            HeadStep::Entry(x) => {
                if count >= entry_room {
                    return Err(refusal(
                        unit,
                        lent.abbreviations,
                        x,
                        e,
                        Refusal(Cause::EntryTableFull),
                    ));
                }
                let declaration = x.declaration;
                let specs = declaration.attributes;
                let offset = x.offset;
                let parent = nesting.parent;
                rnglists_base = base_after(
                    unit,
                    lent.abbreviations,
                    specs,
                    x.values,
                    declaration.tag,
                    DW_AT_rnglists_base,
                    rnglists_base,
                    e,
                );
                loclists_base = base_after(
                    unit,
                    lent.abbreviations,
                    specs,
                    x.values,
                    declaration.tag,
                    DW_AT_loclists_base,
                    loclists_base,
                    e,
                );
                let EntryAnalysis {
                    root,
                    to: place,
                    next,
                } = analyse_entry(unit, x, lent, rnglists_base, loclists_base, e, targets, to)?;
                if place > reference_room {
                    return Err(Refusal(Cause::ReferenceTableFull));
                }
                offsets[count] = offset.0;
                parents[count] = parent.0;
                roots[count] = root;
                reference_ends[count] = place as u64;
                nesting = nesting.after_entry(EntryIndex(count as u64), declaration.children);
                count += 1;
                to = place;
                c = next;
            }
            HeadStep::Terminator(next) => {
                nesting = nesting.after_terminator(parents);
                c = next;
            }
            HeadStep::End => {
                return Ok(Analysis {
                    entries: count,
                    references: to,
                });
            }
        }
    }
}

// How many entries a table has room for: at most so many, and as many as its shortest column has.
fn entry_room(
    entries: usize,
    offsets: usize,
    parents: usize,
    roots: usize,
    reference_ends: usize,
) -> usize
    ensures { result ≡ least entries (least (least offsets parents) (least roots reference_ends)) }
{
    entries.min(offsets.min(parents).min(roots.min(reference_ends)))
}

// Makes every column zeros.
pub fn clear_columns(
    offsets: &mut [u64],
    parents: &mut [u64],
    roots: &mut [u8],
    reference_ends: &mut [u64],
    targets: &mut [u64],
)
    ensures { (offsets.new ≡ zeros (length offsets.old))
        × ((parents.new ≡ zeros (length parents.old))
        × ((roots.new ≡ zeros (length roots.old))
        × ((reference_ends.new ≡ zeros (length reference_ends.old))
        × (targets.new ≡ zeros (length targets.old))))) }
{
    clear(offsets);
    clear(parents);
    clear_bytes(roots);
    clear(reference_ends);
    clear(targets);
}

// Makes every column zeros after a refusal.
fn clear_refused(
    answer: Result<Analysis, Refusal>,
    offsets: &mut [u64],
    parents: &mut [u64],
    roots: &mut [u8],
    reference_ends: &mut [u64],
    targets: &mut [u64],
) -> Result<Analysis, Refusal>
    ensures { (result ≡ answer)
        × ((offsets.new ≡ left_by answer offsets.old)
        × ((parents.new ≡ left_by answer parents.old)
        × ((roots.new ≡ left_by answer roots.old)
        × ((reference_ends.new ≡ left_by answer reference_ends.old)
        × (targets.new ≡ left_by answer targets.old))))) }
{
    match answer {
        Ok(counts) => Ok(counts),
        Err(n) => {
            clear_columns(offsets, parents, roots, reference_ends, targets);
            Err(n)
        }
    }
}

// The one section that range lists are read in: .debug_ranges in version 4, else .debug_rnglists.
pub fn ranges_for<'a>(e: Encoding, ranges: &'a [u8], debug_ranges: &'a [u8]) -> &'a [u8]
    ensures { result.now ≡ ranges_for e ranges.now debug_ranges.now }
{
    if e.version == 4 {
        return debug_ranges;
    }
    ranges
}

// A unit whose declarations were checked, into cleared columns; zeros after a refusal. What is lent has .debug_rnglists,
// and .debug_ranges stands beside it.
fn analyse_unit<'a>(
    section: &[u8],
    h: UnitHeader,
    lent: Lent<'a>,
    debug_ranges: &'a [u8],
    index: &[u64],
    entry_room: usize,
    reference_room: usize,
    offsets: &mut [u64],
    parents: &mut [u64],
    roots: &mut [u8],
    reference_ends: &mut [u64],
    targets: &mut [u64],
) -> Result<Analysis, Refusal>
    requires { AnalysisInput lent.abbreviations.now index.now h.abbreviations (take h.end section.now)
        entry_room reference_room offsets.old parents.old roots.old reference_ends.old targets.old (keep_of lent) }
    ensures { let by = sections_with lent.entry debug_ranges.now in
        let found = unit_analysed h.encoding by (take h.end section.now)
        (rooms entry_room reference_room) h.abbreviations h.first.0 in
        (result ≡ answer_of found)
        × ((offsets.new ≡ column offsets_in (length offsets.old) found)
        × ((parents.new ≡ column parents_in (length parents.old) found)
        × ((roots.new ≡ column roots_in (length roots.old) found)
        × ((reference_ends.new ≡ column (ends_in 0) (length reference_ends.old) found)
        × (targets.new ≡ column names_in (length targets.old) found))))) }
{
    let first = h.first;
    let lists = ranges_for(h.encoding, lent.ranges, debug_ranges);
    let answer = analyse_entries(
        unit_part(section, h),
        Lent {
            ranges: lists,
            ..lent
        },
        h.abbreviations,
        index,
        Cursor {
            at: first.0 as usize,
        },
        h.encoding,
        entry_room,
        reference_room,
        offsets,
        parents,
        roots,
        reference_ends,
        targets,
    );
    clear_refused(answer, offsets, parents, roots, reference_ends, targets)
}

// The unit of a header, its declarations checked and the index of them filled: a refusal of the header, or of the keep
// list before it, then 3 of the abbreviations. An empty section has none.
fn find_unit(
    header: &Result<Option<UnitHeader>, Refusal>,
    abbreviations: &[u8],
    index: &mut [u64],
) -> Result<Option<UnitHeader>, Refusal>
    ensures { (result ≡ unit_found abbreviations.now header.now)
        × (index.new ≡ index_after abbreviations.now header.now (length index.old)) }
{
    clear(index);
    let first = match header {
        Ok(first) => first,
        Err(n) => return Err(*n),
    };
    match first {
        None => Ok(None),
        Some(h) => {
            check_abbreviations(abbreviations, h.abbreviations, index)?;
            Ok(Some(*h))
        }
    }
}

// The header of a section's first unit, before which the keep list is judged: 19 and 20 come before anything of the
// unit.
fn listed_header(
    section: &[u8],
    big_endian: bool,
    tags: &[u8],
    treatments: &[u8],
) -> Result<Option<UnitHeader>, Refusal>
    ensures { result ≡ after_list (keep_refusal (keep_in tags.now treatments.now))
        (header_of big_endian section.now) }
{
    judge(tags, treatments)?;
    unit_header(section, big_endian)
}

// The analysis of the first unit of a section, into the columns of an entry table (where each entry starts, its parent,
// 1 for a root or 0, the number of references up to and with its own) and of a reference table (the offsets that are
// named). At most so many entries and references, and as many as the shortest column has. The index of the declarations
// is for finding them, and stays filled; its length changes no answer. A refusal leaves zeros in the columns: 19 and 20
// of the keep list, 1 and 2 of the header, 3 of the abbreviations, then entry by entry 4, 10, one of 5, 6 and 17, 5 or
// 7, 11. A keep list is tags, two big-endian bytes each, with a byte for each that is its treatment.
pub fn analyse<'a>(
    section: &[u8],
    abbreviations: &[u8],
    locations: &[u8],
    ranges: &'a [u8],
    addresses: &[u8],
    debug_ranges: &'a [u8],
    tags: &[u8],
    treatments: &[u8],
    setting: Setting,
    entries: usize,
    references: usize,
    index: &mut [u64],
    offsets: &mut [u64],
    parents: &mut [u64],
    roots: &mut [u8],
    reference_ends: &mut [u64],
    targets: &mut [u64],
) -> UnitAnalysis
    ensures { let lent = sections abbreviations.now locations.now ranges.now
        addresses.now debug_ranges.now (keep_in tags.now treatments.now)
        setting in
        let room = rooms_of entries references (length offsets.old) (length parents.old)
        (length roots.old) (length reference_ends.old) (length targets.old) in
        let found = analysis_of lent section.now room in
        let header = header_by lent section.now in
        ((result.header ≡ header) × (result.analysis ≡ answer_of found))
        × ((index.new ≡ index_after abbreviations.now header (length index.old))
        × ((offsets.new ≡ column offsets_in (length offsets.old) found)
        × ((parents.new ≡ column parents_in (length parents.old) found)
        × ((roots.new ≡ column roots_in (length roots.old) found)
        × ((reference_ends.new ≡ column (ends_in 0) (length reference_ends.old) found)
        × (targets.new ≡ column names_in (length targets.old) found)))))) }
{
    let header = listed_header(section, setting.big_endian, tags, treatments);
    clear_columns(offsets, parents, roots, reference_ends, targets);
    match find_unit(&header, abbreviations, index) {
        Err(n) => UnitAnalysis {
            header,
            analysis: Err(n),
        },
        Ok(None) => UnitAnalysis {
            header,
            analysis: Ok(Analysis {
                entries: 0,
                references: 0,
            }),
        },
        Ok(Some(h)) => {
            let room = entry_room(
                entries,
                offsets.len(),
                parents.len(),
                roots.len(),
                reference_ends.len(),
            );
            let lent = Lent {
                abbreviations,
                locations,
                ranges,
                addresses,
                tags,
                treatments,
                setting,
            };
            let analysis = analyse_unit(
                section,
                h,
                lent,
                debug_ranges,
                index,
                room,
                references.min(targets.len()),
                offsets,
                parents,
                roots,
                reference_ends,
                targets,
            );
            UnitAnalysis { header, analysis }
        }
    }
}
