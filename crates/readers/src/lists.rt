// Where a range list or a location list starts in its section (DWARF 5, 7.28, 7.29).
ghost use Rattle.std.specs.Prelude.{◌≡◌};
ghost use Rattle.readers.specs.Lists.{list_base, list_offset, list_start};

use crate::cursor::{Cursor, Encoding};
use crate::header::length_bytes;

// The base of a unit whose entries have none of their own: past the header of a list section, in the unit's format.
pub fn list_base(e: Encoding) -> u64
    ensures { result ≡ list_base e }
{
    (length_bytes(e.offset_size) + 8) as u64
}

// The list of an index: its offset stands in the table at the base, and counts from there.
pub fn list_offset(s: &[u8], base: u64, index: u64, e: Encoding) -> Option<Cursor>
    ensures { result ≡ list_offset e s.now base index }
{
    let len = s.len() as u64;
    if base > len {
        return None;
    }
    let size = e.offset_size as u64;
    if size == 0 {
        return list_start(s, base);
    }
    if index > (len - base) / size {
        return None;
    }
    let place = base + index * size;
    let (offset, _) = (Cursor { at: place as usize }).offset(s, e)?;
    if offset > len - base {
        return None;
    }
    list_start(s, base + offset)
}

// The list at an offset of the section. The section's end is a list with no entries.
pub fn list_start(s: &[u8], offset: u64) -> Option<Cursor>
    ensures { result ≡ list_start s.now offset }
{
    if offset > (s.len() as u64) {
        return None;
    }
    Some(Cursor {
        at: offset as usize,
    })
}
