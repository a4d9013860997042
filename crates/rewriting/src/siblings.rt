// The new place of a sibling's target. Where the target is not in the map, the first place after it that is no deeper
// than the sibling's owner is searched for, past whole blocks of deeper places. For that there is a table of bounds,
// two numbers for each eight places: where the block that begins there ends, in eights, and a depth that no place of
// the block is below. Blocks that hold others make a tree. How long the table is changes the time alone.
ghost use Rattle.std.specs.Prelude.{◌≡◌, ◌+◌, ◌*◌, ◌/◌, ◌<◌, ◌≤◌, List, length, get_or};
ghost use Rattle.rewriting.specs.Places.{Place, sibling_of};
ghost use Rattle.rewriting.specs.Inner.Written.{MapHeld, as_mapped};
ghost use Rattle.rewriting.specs.Inner.Bounds.{AsDeep, BoundsFrom, Bounds};

use crate::map::{depth_at, has_old, hinted_place, new_at};
use readers::offsets::UnitOffset;

// A number of the table; 0 where there is none.
fn bound_at(bounds: &[u32], at: usize) -> u64
    ensures { (result ≡ get_or bounds.now at 0) × (result < 4294967296) }
{
    if at >= bounds.len() {
        return 0;
    }
    u64::from(bounds[at])
}

// ---- the search

// The place past the block that begins at a place, where all of it is deeper than so; else the place itself.
fn past_deeper(bounds: &[u32], i: usize, depth: u64) -> usize
    ensures { (ps : List Place) → Bounds ps bounds.now → AsDeep ps (depth + 1) i result }
{
    let k = i / 8;
    if 8 * k < i || bound_at(bounds, 2 * k + 1) <= depth {
        return i;
    }
    8 * (bound_at(bounds, 2 * k) as usize)
}

// The new offset of a sibling's target: its own place, or the first at or after it that is no deeper.
pub(crate) fn sibling_offset(
    map: &[u8],
    places: usize,
    bounds: &[u32],
    old: UnitOffset,
    depth: u64,
) -> Option<UnitOffset>
    ensures { (ps : List Place) → MapHeld ps map.now → places ≡ length ps → Bounds ps bounds.now
        → result ≡ as_mapped (sibling_of ps depth old.0) }
{
    let start = hinted_place(map, places, bounds, old);
    if start < places && has_old(map, start, old) {
        return Some(new_at(map, start));
    }
    // No for: a step is one place, or a whole block.
    let mut i = start;
    while i < places {
        let past = past_deeper(bounds, i, depth);
        if past > i {
            i = past;
        } else {
            if depth_at(map, i) <= depth {
                return Some(new_at(map, i));
            }
            i += 1;
        }
    }
    None
}

// ---- the table

// The least depth of the places from one to another.
fn shallowest(map: &[u8], places: usize, from: usize, to: usize) -> u64
    ensures { (result < 4294967296)
        × ((ps : List Place) → MapHeld ps map.now → places ≡ length ps → AsDeep ps result from to) }
{
    let mut least: u64 = 0xffffffff;
    for i in from..to.min(places) {
        least = least.min(depth_at(map, i));
    }
    least
}

// Where a block ends, in eights, and a depth that none of its places is below.
#[derive(Clone, Copy)]
pub struct Bound {
    pub end: u32,
    pub least: u32,
}

// The bound of a block, by those after it. The block is its own eight places alone, or these and the next two blocks
// where the two are of one length: then a search for n places looks at some log n blocks.
fn block_bound(map: &[u8], places: usize, bounds: &[u32], k: usize) -> Bound
    ensures { (ps : List Place) → MapHeld ps map.now → places ≡ length ps
        → BoundsFrom (k + 1) ps bounds.now → AsDeep ps result.least (8 * k) (8 * result.end) }
{
    if k >= 0xffffffff {
        return Bound { end: 0, least: 0 };
    }
    let next = k + 1;
    let own = shallowest(map, places, 8 * k, 8 * next);
    let middle = bound_at(bounds, 2 * next) as usize;
    if middle > k {
        let end = bound_at(bounds, 2 * middle);
        if 2 * middle == next + end as usize {
            let least = bound_at(bounds, 2 * next + 1).min(bound_at(bounds, 2 * middle + 1));
            return Bound {
                end: end as u32,
                least: own.min(least) as u32,
            };
        }
    }
    Bound {
        end: next as u32,
        least: own as u32,
    }
}

// How many blocks so many places have in a table of so many numbers.
fn block_count(places: usize, numbers: usize) -> usize
    ensures { (result ≤ numbers / 2) × (result < numbers / 2 → places < 8 * result) }
{
    (places / 8 + 1).min(numbers / 2)
}

// Fills the table, from the last block to the first.
pub(crate) fn fill_bounds(map: &[u8], places: usize, bounds: &mut [u32])
    ensures { (ps : List Place) → MapHeld ps map.now → places ≡ length ps → Bounds ps bounds.new }
{
    for k in (0..block_count(places, bounds.len())).rev() {
        let bound = block_bound(map, places, bounds, k);
        bounds[2 * k] = bound.end;
        bounds[2 * k + 1] = bound.least;
    }
}
