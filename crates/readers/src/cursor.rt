// Where a reader stands, what it reads by, and the numbers that DWARF is made of. Each read takes the cursor and
// hands back what it read and the next cursor, or only that; None where it can't be read.
ghost use Rattle.std.specs.Prelude.{◌≡◌, ◌-◌, Bool, length};
ghost use Rattle.readers.specs.Numbers.{uleb, sleb};
ghost use Rattle.readers.specs.Layout.{short};
ghost use Rattle.readers.specs.Cursors.{groups_at, leb_at, fixed_at, skip_at, string_at, forms_at};

use crate::codes::DW_FORM_indirect;

// What a unit's fields are read by; the header makes it.
#[derive(Clone, Copy)]
pub struct Encoding {
    pub version: u16,
    pub offset_size: u8,
    pub address_size: u8,
    pub big_endian: bool,
}

// A place in a slice.
#[derive(Clone, Copy)]
pub struct Cursor {
    pub at: usize,
}

// The groups of a LEB128 number of at most ten bytes: its value is low + high * 2^63, and weight is 128 to the number
// of bytes before the last.
#[derive(Clone, Copy)]
pub struct Groups {
    pub low: u64,
    pub high: u64,
    pub weight: u64,
    pub next: Cursor,
}

// How many bytes are left from a place on.
pub fn left(s: &[u8], at: usize) -> usize
    ensures { result ≡ length s.now - at }
{
    s.len().saturating_sub(at)
}

impl Cursor {
    // The groups of a LEB128 number.
    pub fn groups(self, s: &[u8]) -> Option<Groups>
        ensures { result ≡ groups_at s.now self.at }
    {
        let at = self.at;
        let size = left(s, at);
        let mut low: u64 = 0;
        let mut weight: u64 = 1;
        for k in 0..9 {
            if k >= size {
                return None;
            }
            let b = s[at + k] as u64;
            if b < 128 {
                return Some(Groups {
                    low: low + b * weight,
                    high: 0,
                    weight,
                    next: Cursor { at: at + k + 1 },
                });
            }
            low += (b - 128) * weight;
            weight *= 128;
        }
        if size <= 9 {
            return None;
        }
        let b = s[at + 9] as u64;
        if b < 128 {
            return Some(Groups {
                low,
                high: b,
                weight,
                next: Cursor { at: at + 10 },
            });
        }
        None
    }

    // An unsigned LEB128 number within 64 bits, of any length.
    pub fn long_uleb(self, s: &[u8]) -> Option<(u64, Cursor)>
        ensures { result ≡ leb_at uleb s.now self.at }
    {
        let Groups {
            low,
            high,
            next,
            ..
        } = self.groups(s)?;
        if high < 2 {
            Some((low + high * 0x8000_0000_0000_0000, next))
        } else {
            None
        }
    }

    // An unsigned LEB128 number within 64 bits. Most have one byte.
    pub fn uleb(self, s: &[u8]) -> Option<(u64, Cursor)>
        ensures { result ≡ leb_at uleb s.now self.at }
    {
        let at = self.at;
        if at < s.len() {
            let b = s[at] as u64;
            if b < 128 {
                return Some((b, Cursor { at: at + 1 }));
            }
        }
        self.long_uleb(s)
    }

    // A signed LEB128 number within 64 bits, as the bits of its two's complement, of any length.
    pub fn long_sleb(self, s: &[u8]) -> Option<(u64, Cursor)>
        ensures { result ≡ leb_at sleb s.now self.at }
    {
        let Groups {
            low,
            high,
            weight,
            next,
        } = self.groups(s)?;
        if weight == 0x8000_0000_0000_0000 {
            return match high {
                0 => Some((low, next)),
                127 => Some((low + 0x8000_0000_0000_0000, next)),
                _ => None,
            };
        }
        if low < 64 * weight {
            return Some((low, next));
        }
        Some((0xffff_ffff_ffff_ffff - 128 * weight + 1 + low, next))
    }

    // A signed LEB128 number within 64 bits, as the bits of its two's complement. Most have one byte.
    pub fn sleb(self, s: &[u8]) -> Option<(u64, Cursor)>
        ensures { result ≡ leb_at sleb s.now self.at }
    {
        let at = self.at;
        if at < s.len() {
            let b = s[at] as u64;
            if b < 64 {
                return Some((b, Cursor { at: at + 1 }));
            }
            if b < 128 {
                return Some((0xffff_ffff_ffff_ff80 + b, Cursor { at: at + 1 }));
            }
        }
        self.long_sleb(s)
    }

    // A number in at most three bytes and 16 bits: a tag, a name or a form. Most have one byte.
    #[inline(always)]
    pub fn short(self, s: &[u8]) -> Option<(u64, Cursor)>
        ensures { result ≡ leb_at short s.now self.at }
    {
        let at = self.at;
        if at >= s.len() {
            return None;
        }
        let first = s[at] as u64;
        if first < 128 {
            return Some((first, Cursor { at: at + 1 }));
        }
        if at + 1 >= s.len() {
            return None;
        }
        let second = s[at + 1] as u64;
        if second < 128 {
            return Some((first - 128 + 128 * second, Cursor { at: at + 2 }));
        }
        if at + 2 >= s.len() {
            return None;
        }
        let third = s[at + 2] as u64;
        if third < 4 {
            Some((
                first - 128 + 128 * (second - 128 + 128 * third),
                Cursor { at: at + 3 },
            ))
        } else {
            None
        }
    }

    // A byte.
    fn byte(self, s: &[u8]) -> Option<(u64, Cursor)>
        ensures { (big : Bool) → result ≡ fixed_at big 1 s.now self.at }
    {
        let at = self.at;
        if at < s.len() {
            return Some((s[at] as u64, Cursor { at: at + 1 }));
        }
        None
    }

    // Four bytes.
    fn four(self, s: &[u8], big_endian: bool) -> Option<(u64, Cursor)>
        ensures { result ≡ fixed_at big_endian 4 s.now self.at }
    {
        let at = self.at;
        if left(s, at) < 4 {
            return None;
        }
        let bytes = [s[at], s[at + 1], s[at + 2], s[at + 3]];
        let value = if big_endian {
            u32::from_be_bytes(bytes)
        } else {
            u32::from_le_bytes(bytes)
        };
        Some((u64::from(value), Cursor { at: at + 4 }))
    }

    // Eight bytes.
    fn eight(self, s: &[u8], big_endian: bool) -> Option<(u64, Cursor)>
        ensures { result ≡ fixed_at big_endian 8 s.now self.at }
    {
        let at = self.at;
        if left(s, at) < 8 {
            return None;
        }
        let bytes = [
            s[at],
            s[at + 1],
            s[at + 2],
            s[at + 3],
            s[at + 4],
            s[at + 5],
            s[at + 6],
            s[at + 7],
        ];
        let value = if big_endian {
            u64::from_be_bytes(bytes)
        } else {
            u64::from_le_bytes(bytes)
        };
        Some((value, Cursor { at: at + 8 }))
    }

    // A number of a fixed width, at most eight bytes. Those of one, four and eight bytes are read at once.
    pub fn fixed(self, s: &[u8], width: usize, big_endian: bool) -> Option<(u64, Cursor)>
        ensures { result ≡ fixed_at big_endian width s.now self.at }
    {
        match width {
            1 => self.byte(s),
            4 => self.four(s, big_endian),
            8 => self.eight(s, big_endian),
            _ => self.bytewise(s, width, big_endian),
        }
    }

    // A number of a fixed width, byte by byte.
    fn bytewise(self, s: &[u8], width: usize, big_endian: bool) -> Option<(u64, Cursor)>
        ensures { result ≡ fixed_at big_endian width s.now self.at }
    {
        let at = self.at;
        if width > 8 || width > left(s, at) {
            return None;
        }
        let mut value: u64 = 0;
        for i in 0..width {
            let k = if big_endian {
                at + i
            } else {
                at + (width - 1 - i)
            };
            value = value * 256 + (s[k] as u64);
        }
        Some((value, Cursor { at: at + width }))
    }

    // An address.
    pub fn address(self, s: &[u8], e: Encoding) -> Option<(u64, Cursor)>
        ensures { result ≡ fixed_at e.big_endian e.address_size s.now self.at }
    {
        self.fixed(s, e.address_size as usize, e.big_endian)
    }

    // A section offset.
    pub fn offset(self, s: &[u8], e: Encoding) -> Option<(u64, Cursor)>
        ensures { result ≡ fixed_at e.big_endian e.offset_size s.now self.at }
    {
        self.fixed(s, e.offset_size as usize, e.big_endian)
    }

    // A run of n bytes.
    pub fn bytes(self, s: &[u8], n: u64) -> Option<Cursor>
        ensures { result ≡ skip_at s.now self.at n }
    {
        let at = self.at;
        if n > (left(s, at) as u64) {
            return None;
        }
        Some(Cursor {
            at: at + (n as usize),
        })
    }

    // A string with its zero byte.
    pub fn string(self, s: &[u8]) -> Option<Cursor>
        ensures { result ≡ string_at s.now self.at }
    {
        // No for: it takes half as many instructions again for each byte.
        let mut at = self.at;
        while at < s.len() {
            let b = s[at];
            at += 1;
            if b == 0 {
                return Some(Cursor { at });
            }
        }
        None
    }

    // The form numbers before a value of DW_FORM_indirect, up to the first that is another form.
    pub fn forms(self, s: &[u8]) -> Option<(u64, Cursor)>
        ensures { result ≡ forms_at s.now self.at }
    {
        let mut c = self;
        loop {
            let (form, next) = c.short(s)?;
            if form != DW_FORM_indirect {
                return Some((form, next));
            }
            c = next;
        }
    }
}
