// The pass that writes a unit anew: its header with the new length, then the kept entries and terminators (gc.rs:
// `emit_dies`).
ghost use Rattle.std.specs.Prelude.{◌≡◌, List, [], length};
ghost use Rattle.marking.specs.Analysis.{Sections};
ghost use Rattle.rewriting.specs.Places.{Place, kept_from};
ghost use Rattle.rewriting.specs.Rewriting.{Unit as Unit', Lists, items_in, refusal_from, bytes_from};
ghost use Rattle.rewriting.specs.Inner.Written.{MapHeld};
ghost use Rattle.rewriting.specs.Inner.Bounds.{Bounds};
ghost use Rattle.rewriting.specs.Inner.IndexLists.{PassInput};
ghost use Rattle.rewriting.specs.Emission.{header_count, header_over};
ghost use Rattle.rewriting.specs.Inner.Emission.{Emits, Within, ListsLent};

use crate::emit_entry::{bytes_between, emit_bytes, emit_entry};
use crate::kept_items::{KeptItem, PassPosition, Reading, next_kept};
use crate::numbers::{bytes_fit, put_bytes, put_fixed};
use readers::cursor::Encoding;
use readers::header::length_bytes;
use readers::offsets::UnitOffset;
use readers::refusal::Refusal;

// Writes the kept items (gc.rs: `emit_dies`).
pub(crate) fn emit_dies(
    unit: &[u8],
    abbreviations: &[u8],
    r: Reading,
    index: &[u64],
    parents: &[u64],
    ends: &[u64],
    marks: &[u8],
    first: UnitOffset,
    map: &[u8],
    places: usize,
    bounds: &[u32],
    ranges: &[u8],
    ranges_count: Option<usize>,
    locations: &[u8],
    locations_count: Option<usize>,
    strings: &[u8],
    strings_count: Option<usize>,
    out: &mut [u8],
) -> Result<usize, Refusal>
    ensures within { Within out.old result out.new }
    ensures bytes { (x : Sections) (u : Unit') (lists : Lists) (ps : List Place)
        → PassInput x u r abbreviations.now index.now unit.now parents.now
        ends.now marks.now first.0
        → first.0 ≡ u.header.first.0
        → MapHeld ps map.now → places ≡ length ps → Bounds ps bounds.now
        → ListsLent lists ranges.now ranges_count locations.now locations_count
        strings.now strings_count
        → let items = kept_from marks.now 0 [] (items_in x u) in
        Emits (refusal_from x u lists ps items) (bytes_from x u lists ps items) out.old result out.new }
{
    let mut s = PassPosition::start(first);
    let mut to: usize = 0;
    // No for: the place goes on by what is read there.
    loop {
        let Some(x) = next_kept(unit, abbreviations, r, index, parents, ends, marks, s) else {
            return Ok(to);
        };
        let next = x.next;
        let start = x.start;
        let end = x.end;
        if x.is_entry {
            to += emit_entry(
                unit,
                abbreviations,
                start,
                x.specs,
                x.values,
                x.depth,
                r.encoding,
                map,
                places,
                bounds,
                ranges,
                ranges_count,
                locations,
                locations_count,
                strings,
                strings_count,
                &mut out[to..],
            )?;
            s = next;
        } else {
            let n = emit_bytes(
                bytes_between(unit, start.0 as usize, end.at),
                &mut out[to..],
            );
            to += n;
            s = next;
        }
    }
}

// The header: as it was, but for the new length (gc.rs: the end of `rewrite_unit`). How many bytes; 0, and nothing is
// written, where it has no room or its length is no number of so many bytes.
pub fn emit_header(
    unit: &[u8],
    first: UnitOffset,
    bytes: usize,
    e: Encoding,
    out: &mut [u8],
) -> usize
    ensures count { result ≡ header_count e unit.now first.0 bytes out.old }
    ensures part { out.new ≡ header_over e unit.now first.0 bytes out.old }
{
    let at = first.0 as usize;
    let width = e.offset_size as usize;
    let length = length_bytes(e.offset_size);
    if at < length || at > unit.len() || at > out.len() || bytes < length {
        return 0;
    }
    let size = (bytes - length) as u64;
    if !bytes_fit(size, width, length) {
        return 0;
    }
    put_bytes(&unit[..at], out);
    let place = length - width;
    put_fixed(size, width, e.big_endian, &mut out[place..]);
    at
}
