// Tables of rows of so many bytes each: the big-endian numbers in them, and the search of rows that ascend, by halves or
// from a guess on.
ghost use Rattle.std.specs.Prelude.{◌≡◌, ℕ, ◌+◌, ◌-◌, ◌<◌, ◌≤◌, List, length, get_or};
ghost use Rattle.rewriting.specs.Ascending.{Ascending};
ghost use Rattle.rewriting.specs.Indices.{rank_in};
ghost use Rattle.rewriting.specs.Written.{row_number, halved};

use crate::numbers::big_endian_at;

// The number of so many bytes that stands at a byte of a row; 0 where there is no such row.
pub(crate) fn row_number(table: &[u8], row: usize, byte: usize, width: usize, i: usize) -> u64
    requires row_nonzero { 0 < row }
    requires width_bound { byte + width ≤ row }
    requires width_bound_2 { width ≤ 8 }
    ensures { result ≡ row_number row byte width table.now i }
{
    if i >= table.len() / row {
        return 0;
    }
    big_endian_at(table, row * i + byte, width)
}

// The first row from one to another whose number, which the row begins with, is not below a value, where they ascend;
// the second where there is none.
pub(crate) fn first_row(
    table: &[u8],
    row: usize,
    width: usize,
    from: usize,
    to: usize,
    value: u64,
) -> usize
    requires row_nonzero { 0 < row }
    requires width_le_row { width ≤ row }
    requires width_bound { width ≤ 8 }
    ensures { (result ≡ halved (to - from) (row_number row 0 width table.now) value from to) × (from ≤ to → result ≤ to) }
{
    // No partition_point: a row is some bytes of the table, no element of a slice.
    let mut low = from;
    let mut high = to;
    while low < high {
        let middle = low + (high - low) / 2;
        if row_number(table, row, 0, width, middle) < value {
            low = middle + 1;
        } else {
            high = middle;
        }
    }
    low
}

// The first row whose number, which the row begins with, is not below a value, where they ascend: it is looked for in
// eight rows from a guess on, then by halves.
pub(crate) fn hinted_row(
    table: &[u8],
    row: usize,
    width: usize,
    count: usize,
    value: u64,
    guess: usize,
) -> usize
    requires row_nonzero { 0 < row }
    requires width_le_row { width ≤ row }
    requires width_bound { width ≤ 8 }
    ensures { (xs : List ℕ) → Ascending xs → count ≡ length xs
        → ((i : ℕ) → i < length xs → row_number row 0 width table.now i ≡ get_or xs i 0)
        → result ≡ rank_in xs value }
{
    for i in guess..count.min(guess.saturating_add(8)) {
        let number = row_number(table, row, 0, width, i);
        if number == value {
            return i;
        }
        if number > value {
            if i == 0 || row_number(table, row, 0, width, i - 1) < value {
                return i;
            }
            break;
        }
    }
    first_row(table, row, width, 0, count, value)
}
