// The work column in the emission: the bounds of the map's depths, and behind them hints for the map and the index lists.
ghost use Rattle.std.specs.Prelude.{◌≡◌, List, length};
ghost use Rattle.rewriting.specs.Places.{Place};
ghost use Rattle.rewriting.specs.Inner.Written.{MapHeld};
ghost use Rattle.rewriting.specs.Inner.Bounds.{Bounds};

use crate::hints::{LOCATION_HINTS, MAP_HINTS, RANGE_HINTS, STRING_HINTS, fill_hints};
use crate::map::{NUMBER_SIZE, PLACE_SIZE};
use crate::siblings::fill_bounds;

// How many numbers a list has; 0 where it is absent.
fn numbers(count: Option<usize>) -> usize {
    match count {
        Some(n) => n,
        None => 0,
    }
}

// Fills the column; the bounds last, for where it is short they overlap the hints.
pub(crate) fn fill_work(
    map: &[u8],
    places: usize,
    ranges: &[u8],
    ranges_count: Option<usize>,
    locations: &[u8],
    locations_count: Option<usize>,
    strings: &[u8],
    strings_count: Option<usize>,
    work: &mut [u32],
)
    ensures { (ps : List Place) → MapHeld ps map.now → places ≡ length ps → Bounds ps work.new }
{
    let part = work.len() / 16;
    let for_map = MAP_HINTS * part;
    let for_strings = STRING_HINTS * part;
    let for_locations = LOCATION_HINTS * part;
    let for_ranges = RANGE_HINTS * part;
    let end = 16 * part;
    fill_hints(
        map,
        PLACE_SIZE,
        NUMBER_SIZE,
        places,
        work,
        for_map,
        for_strings,
    );
    fill_hints(
        strings,
        8,
        8,
        numbers(strings_count),
        work,
        for_strings,
        for_locations,
    );
    fill_hints(
        locations,
        8,
        8,
        numbers(locations_count),
        work,
        for_locations,
        for_ranges,
    );
    fill_hints(ranges, 8, 8, numbers(ranges_count), work, for_ranges, end);
    fill_bounds(map, places, work);
}
