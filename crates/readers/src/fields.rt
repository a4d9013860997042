// One token of a layout, read by its number, and rows of up to three of them.
ghost use Rattle.std.specs.Prelude.{◌≡◌};
ghost use Rattle.readers.specs.Fields.{block_field, field_at, row_at, exprloc_at, part_of};
ghost use Rattle.readers.specs.Inner.Fields.{number_field, bounded_field, moved_field, number_at};
ghost use Rattle.readers.specs.Cursors.{cursor};

use crate::cursor::{Cursor, Encoding, left};
use crate::layouts::*;

// What a token read: its number (0 where it is none), and where its payload starts and ends. The payload of a block
// or an expression follows its length.
#[derive(Clone, Copy)]
pub struct Field {
    pub value: u64,
    pub start: usize,
    pub end: usize,
}

// The three fields of a row.
#[derive(Clone, Copy)]
pub struct Operands {
    pub first: Field,
    pub second: Field,
    pub third: Field,
}

// The three tokens of each row (specs/Operations.antt).
static ROWS: [[u8; 3]; 31] = [
    [UNREADABLE, NO_BYTES, NO_BYTES], // ROW_UNREADABLE
    [NO_BYTES, NO_BYTES, NO_BYTES], // ROW_NONE
    [ADDRESS, NO_BYTES, NO_BYTES], // ROW_ADDRESS
    [BYTES1, NO_BYTES, NO_BYTES], // ROW_BYTES1
    [BYTES2, NO_BYTES, NO_BYTES], // ROW_BYTES2
    [BYTES4, NO_BYTES, NO_BYTES], // ROW_BYTES4
    [BYTES8, NO_BYTES, NO_BYTES], // ROW_BYTES8
    [ULEB128, NO_BYTES, NO_BYTES], // ROW_ULEB128
    [SLEB128, NO_BYTES, NO_BYTES], // ROW_SLEB128
    [REGISTER, NO_BYTES, NO_BYTES], // ROW_REGISTER
    [REGISTER, SLEB128, NO_BYTES], // ROW_REGISTER_SLEB128
    [ULEB128, ULEB128, NO_BYTES], // ROW_ULEB128_ULEB128
    [BYTES2, NO_BYTES, NO_BYTES], // ROW_REFERENCE2
    [BYTES4, NO_BYTES, NO_BYTES], // ROW_REFERENCE4
    [ULEB128, NO_BYTES, NO_BYTES], // ROW_TYPE
    [REGISTER, ULEB128, NO_BYTES], // ROW_REGISTER_TYPE
    [BYTES1, ULEB128, NO_BYTES], // ROW_BYTES1_TYPE
    [ULEB128, BLOCK1, NO_BYTES], // ROW_TYPE_BLOCK1
    [BLOCK_ULEB128, NO_BYTES, NO_BYTES], // ROW_BLOCK
    [EXPRLOC, NO_BYTES, NO_BYTES], // ROW_EXPRESSION
    [OFFSET, NO_BYTES, NO_BYTES], // ROW_OFFSET
    [OFFSET, SLEB128, NO_BYTES], // ROW_OFFSET_SLEB128
    [ULEB128, NO_BYTES, NO_BYTES], // ROW_ADDRESS_INDEX
    [ADDRESS, ADDRESS, NO_BYTES], // ROW_ADDRESS_ADDRESS
    [ADDRESS, ULEB128, NO_BYTES], // ROW_ADDRESS_ULEB128
    [ULEB128, ULEB128, EXPRLOC], // ROW_ULEB128_ULEB128_EXPRESSION
    [ADDRESS, ADDRESS, EXPRLOC], // ROW_ADDRESS_ADDRESS_EXPRESSION
    [ADDRESS, ULEB128, EXPRLOC], // ROW_ADDRESS_ULEB128_EXPRESSION
    [ULEB128, ULEB128, BLOCK2], // ROW_ULEB128_ULEB128_BLOCK2
    [ULEB128, BYTES4, BLOCK2], // ROW_ULEB128_BYTES4_BLOCK2
    [BYTES4, BYTES4, BLOCK2], // ROW_BYTES4_BYTES4_BLOCK2
];

pub(crate) fn number_field(at: usize, n: Option<(u64, Cursor)>) -> Option<Field>
    ensures { result ≡ number_field at n }
{
    let (value, next) = n?;
    Some(Field {
        value,
        start: at,
        end: next.at,
    })
}

// A number that is at most 65,535: a register.
fn bounded_field(at: usize, n: Option<(u64, Cursor)>) -> Option<Field>
    ensures { result ≡ bounded_field at n }
{
    let (value, next) = n?;
    if value <= 65535 {
        Some(Field {
            value,
            start: at,
            end: next.at,
        })
    } else {
        None
    }
}

// Bytes that are no number, up to the place that they were stepped over to.
fn moved_field(at: usize, moved: Option<Cursor>) -> Option<Field>
    ensures { result ≡ moved_field at moved }
{
    let next = moved?;
    Some(Field {
        value: 0,
        start: at,
        end: next.at,
    })
}

// As many bytes as a length says.
fn block_field(s: &[u8], n: Option<(u64, Cursor)>) -> Option<Field>
    ensures { result ≡ block_field s.now n }
{
    let (length, next) = n?;
    let start = next.at;
    if length <= (left(s, start) as u64) {
        Some(Field {
            value: 0,
            start,
            end: start + (length as usize),
        })
    } else {
        None
    }
}

impl Cursor {
    // A number by its token: 1 to 8 bytes, an address, an offset, ULEB128 (any other).
    fn number(self, s: &[u8], token: u8, e: Encoding) -> Option<(u64, Cursor)>
        ensures { result ≡ number_at e s.now self.at token }
    {
        match token {
            ..=BYTES8 => self.fixed(s, token as usize, e.big_endian),
            ADDRESS => self.address(s, e),
            OFFSET => self.offset(s, e),
            _ => self.uleb(s),
        }
    }

    // A token by its number (specs/Tokens.antt).
    pub fn field(self, s: &[u8], token: u8, e: Encoding) -> Option<Field>
        ensures { result ≡ field_at e s.now self.at token }
    {
        let at = self.at;
        match token {
            NO_BYTES => {
                Some(Field {
                    value: 0,
                    start: at,
                    end: at,
                })
            }
            ..=ULEB128 => number_field(at, self.number(s, token, e)),
            SLEB128 => number_field(at, self.long_sleb(s)),
            NULL_TERMINATED => moved_field(at, self.string(s)),
            DATA16 => moved_field(at, self.bytes(s, 16)),
            BLOCK1 => block_field(s, self.number(s, BYTES1, e)),
            BLOCK2 => block_field(s, self.number(s, BYTES2, e)),
            BLOCK4 => block_field(s, self.number(s, BYTES4, e)),
            BLOCK_ULEB128 => block_field(s, self.long_uleb(s)),
            EXPRLOC => self.exprloc(s),
            REGISTER => bounded_field(at, self.uleb(s)),
            _ => None,
        }
    }

    // A row of tokens by its number.
    pub fn row(self, s: &[u8], layout: u8, e: Encoding) -> Option<Operands>
        ensures { result ≡ row_at e s.now self.at layout }
    {
        let l = layout as usize;
        if l >= ROWS.len() {
            return None;
        }
        let [one, two, three] = ROWS[l];
        let first = self.field(s, one, e)?;
        let second = first.next().field(s, two, e)?;
        let third = second.next().field(s, three, e)?;
        Some(Operands {
            first,
            second,
            third,
        })
    }

    // An exprloc: a length, and that many bytes. Unreadable where its length is, or where the bytes are not there; so
    // an unreadable one is told from one of no bytes.
    pub fn exprloc(self, s: &[u8]) -> Option<Field>
        ensures { result ≡ exprloc_at s.now self.at }
    {
        block_field(s, self.uleb(s))
    }
}

impl Field {
    // The part of the slice that the field's payload is, as far as the slice has it: of an exprloc the expression
    // after its length.
    pub fn expression<'a>(self, s: &'a [u8]) -> &'a [u8]
        ensures { result.now ≡ part_of s.now self }
    {
        let end = self.end.min(s.len());
        &s[self.start.min(end)..end]
    }

    // The cursor past the field.
    pub fn next(self) -> Cursor
        ensures { result ≡ cursor self.end }
    {
        Cursor { at: self.end }
    }
}
