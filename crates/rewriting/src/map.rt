// The map: old offset, new offset and depth of each place, eight big-endian bytes each, in ascending order.
ghost use Rattle.std.specs.Prelude.{◌≡◌, ◌/◌, List, length, eqb};
ghost use Rattle.rewriting.specs.Written.{place_size, old_at, new_at, depth_at, halved, found_at, looked_up};
ghost use Rattle.rewriting.specs.Indices.{rank_in};
ghost use Rattle.rewriting.specs.Places.{Place, new_of, old_offsets};
ghost use Rattle.rewriting.specs.Inner.Written.{WithPlace, MapHeld, as_mapped};

use crate::hints::{MAP_HINTS, hint};
use crate::numbers::put_big_endian;
use crate::rows::{first_row, hinted_row, row_number};
use readers::offsets::UnitOffset;

// The bytes of a number of the map.
pub const NUMBER_SIZE: usize = 8;

// The bytes of a place: three numbers.
pub const PLACE_SIZE: usize = 24;

// How many places a map has room for.
pub fn most_places(map: &[u8]) -> usize
    ensures { result ≡ length map.now / place_size }
{
    map.len() / PLACE_SIZE
}

// What a place has: its old offset, its new one and its depth; 0 where there is none.
pub fn old_at(map: &[u8], i: usize) -> UnitOffset
    ensures { result.0 ≡ old_at map.now i }
{
    UnitOffset(row_number(map, PLACE_SIZE, 0, NUMBER_SIZE, i))
}

pub fn new_at(map: &[u8], i: usize) -> UnitOffset
    ensures { result.0 ≡ new_at map.now i }
{
    UnitOffset(row_number(map, PLACE_SIZE, NUMBER_SIZE, NUMBER_SIZE, i))
}

pub fn depth_at(map: &[u8], i: usize) -> u64
    ensures { result ≡ depth_at map.now i }
{
    row_number(map, PLACE_SIZE, 2 * NUMBER_SIZE, NUMBER_SIZE, i)
}

// Whether a place has an old offset.
pub fn has_old(map: &[u8], i: usize, old: UnitOffset) -> bool
    ensures { result ≡ eqb (old_at map.now i) old.0 }
{
    let offset = old_at(map, i);
    offset.0 == old.0
}

// One place more, where there is room for it.
pub(crate) fn put_place(map: &mut [u8], i: usize, old: UnitOffset, new: UnitOffset, depth: u64)
    ensures { WithPlace i old.0 new.0 depth map.old map.new }
{
    if i >= most_places(map) {
        return;
    }
    let at = PLACE_SIZE * i;
    put_big_endian(map, at, NUMBER_SIZE, old.0);
    put_big_endian(map, at + NUMBER_SIZE, NUMBER_SIZE, new.0);
    put_big_endian(map, at + 2 * NUMBER_SIZE, NUMBER_SIZE, depth);
}

// How many of the first places are before an old offset.
pub fn before(map: &[u8], places: usize, old: UnitOffset) -> usize
    ensures { result ≡ halved places (old_at map.now) old.0 0 places }
{
    first_row(map, PLACE_SIZE, NUMBER_SIZE, 0, places, old.0)
}

// The new offset at a place, where it has the old one.
fn found_at(map: &[u8], places: usize, old: UnitOffset, i: usize) -> Option<UnitOffset>
    ensures { result ≡ found_at map.now places old.0 i }
{
    if i < places && has_old(map, i, old) {
        return Some(new_at(map, i));
    }
    None
}

// The new offset of an old one.
pub fn new_offset(map: &[u8], places: usize, old: UnitOffset) -> Option<UnitOffset>
    ensures { result ≡ looked_up map.now places old.0 }
{
    let i = before(map, places, old);
    found_at(map, places, old, i)
}

// ---- by hints

// How many of the first places are before an old offset, by hints.
pub(crate) fn hinted_place(map: &[u8], places: usize, work: &[u32], old: UnitOffset) -> usize
    ensures { (ps : List Place) → MapHeld ps map.now → places ≡ length ps → result ≡ rank_in (old_offsets ps) old.0 }
{
    let guess = hint(work, MAP_HINTS * (work.len() / 16), old.0);
    hinted_row(map, PLACE_SIZE, NUMBER_SIZE, places, old.0, guess)
}

// The new offset of an old one, by hints.
pub(crate) fn hinted_offset(
    map: &[u8],
    places: usize,
    work: &[u32],
    old: UnitOffset,
) -> Option<UnitOffset>
    ensures { (ps : List Place) → MapHeld ps map.now → places ≡ length ps → result ≡ as_mapped (new_of ps old.0) }
{
    found_at(map, places, old, hinted_place(map, places, work, old))
}
