// Hints: where the search of a table of ascending rows best begins. They stand in the work column: for each table, from
// so many sixteenths of the column on, a shift and then, for each shifted number, the first row that has one as large. A
// hint is never trusted: a wrong one changes the time alone.
ghost use Rattle.std.specs.Prelude.{◌<◌, ◌≤◌};

use crate::rows::row_number;

// The sixteenths where the hints for the map and for the index lists begin; before them are the bounds of the depths.
pub const MAP_HINTS: usize = 4;

pub const STRING_HINTS: usize = 10;

pub const LOCATION_HINTS: usize = 13;

pub const RANGE_HINTS: usize = 15;

// The least shift that brings a number below a bound.
fn least_shift(number: u64, bound: u64) -> u32
    ensures { result < 64 }
{
    for shift in 0..63 {
        if number >> shift < bound {
            return shift;
        }
    }
    63
}

// The hint for a value, by the hints from a place of the column on; 0 where there is none.
pub(crate) fn hint(column: &[u32], from: usize, value: u64) -> usize {
    if from >= column.len() {
        return 0;
    }
    let shift = column[from];
    if shift > 63 {
        return 0;
    }
    let run = value >> shift;
    if run >= (column.len() - from - 1) as u64 {
        return 0;
    }
    let at = from + 1 + run as usize;
    column[at] as usize
}

// Fills the hints of a part of the column, which a shift begins.
fn fill_runs(
    table: &[u8],
    row: usize,
    width: usize,
    count: usize,
    column: &mut [u32],
    from: usize,
    to: usize,
    shift: u32,
)
    requires row_nonzero { 0 < row }
    requires width_le_row { width ≤ row }
    requires width_bound { width ≤ 8 }
    requires shift_bound { shift < 64 }
{
    if count > 0xffffffff || to > column.len() || from >= to {
        return;
    }
    // No for: two places move, each at its own speed.
    let mut i: usize = 0;
    let mut at = from + 1;
    while at < to {
        if i >= count {
            return;
        }
        let run = row_number(table, row, 0, width, i) >> shift;
        if run < (at - from - 1) as u64 {
            i += 1;
        } else {
            column[at] = i as u32;
            at += 1;
        }
    }
}

// Fills a part of the column with the hints for the first rows of a table.
pub(crate) fn fill_hints(
    table: &[u8],
    row: usize,
    width: usize,
    count: usize,
    column: &mut [u32],
    from: usize,
    to: usize,
)
    requires row_nonzero { 0 < row }
    requires width_le_row { width ≤ row }
    requires width_bound { width ≤ 8 }
{
    if count == 0 || to > column.len() || from >= to {
        return;
    }
    let last = row_number(table, row, 0, width, count - 1);
    // At most one hint a row.
    let hints = count.min(to - from - 1);
    let shift = least_shift(last, hints as u64);
    column[from] = shift;
    fill_runs(table, row, width, count, column, from, to, shift);
}
