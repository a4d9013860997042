// The header of a unit (DWARF 5, 7.5.1; DWARF 4, 7.5.1.1), within the domain: versions 4 and 5, both formats, either byte
// order.
ghost use Rattle.std.specs.Prelude.{◌≡◌, ◌≤◌, length, take};
ghost use Rattle.readers.specs.Header.{length_bytes, fields4, fields5, header_fields, header_in, header_of, size_known};

use crate::codes::{DW_UT_compile, DW_UT_split_compile};
use crate::cursor::{Cursor, Encoding, left};
use crate::offsets::UnitOffset;
use crate::refusal::{Cause, Refusal};

// A unit's header: what its fields are read by, its type, where its abbreviations start in their section, where its
// first entry starts, and where the unit ends in the section.
#[derive(Clone, Copy)]
pub struct UnitHeader {
    pub encoding: Encoding,
    pub unit_type: u8,
    pub abbreviations: u64,
    pub first: UnitOffset,
    pub end: usize,
}

// The least number that is no length of the 32-bit format (7.4).
const FIRST_RESERVED: u64 = 0xffff_fff0;

// What stands for a length of the 64-bit format, whose eight bytes follow (7.4).
const ESCAPE_64: u64 = 0xffff_ffff;

// How many bytes the length field takes, by the size of an offset.
pub fn length_bytes(offset_size: u8) -> usize
    ensures { result ≡ length_bytes offset_size }
{
    if offset_size == 8 { 12 } else { 4 }
}

// Whether a size is that of an address or of an offset.
pub(crate) fn size_known(n: u8) -> bool
    ensures { result ≡ size_known n }
{
    n == 4 || n == 8
}

// The fields of version 5 after the version, which ends at a place.
fn fields_5(
    unit: &[u8],
    at: usize,
    offset_size: u8,
    big_endian: bool,
) -> Result<Option<UnitHeader>, Refusal>
    requires { at ≤ length unit.now }
    ensures { result ≡ fields5 big_endian offset_size unit.now at }
{
    if unit.len() <= at {
        return Err(Refusal(Cause::ShortHeader));
    }
    let unit_type = unit[at];
    if unit_type != DW_UT_compile && unit_type != DW_UT_split_compile {
        return Err(Refusal(Cause::OutsideDomain));
    }
    let size_at = at + 1;
    if unit.len() <= size_at {
        return Err(Refusal(Cause::ShortHeader));
    }
    let address_size = unit[size_at];
    if !size_known(address_size) {
        return Err(Refusal(Cause::OutsideDomain));
    }
    let width = offset_size as usize;
    let (abbreviations, _) = (Cursor { at: at + 2 })
        .fixed(unit, width, big_endian)
        .ok_or(Refusal(Cause::ShortHeader))?;
    let encoding = Encoding {
        version: 5,
        offset_size,
        address_size,
        big_endian,
    };
    let first = at + 2 + width;
    if unit_type == DW_UT_compile {
        return Ok(Some(UnitHeader {
            encoding,
            unit_type,
            abbreviations,
            first: UnitOffset(first as u64),
            end: unit.len(),
        }));
    }
    if unit.len() < first + 8 {
        return Err(Refusal(Cause::ShortHeader));
    }
    Ok(Some(UnitHeader {
        encoding,
        unit_type,
        abbreviations,
        first: UnitOffset((first + 8) as u64),
        end: unit.len(),
    }))
}

// The fields of version 4 after the version, which ends at a place.
fn fields_4(
    unit: &[u8],
    at: usize,
    offset_size: u8,
    big_endian: bool,
) -> Result<Option<UnitHeader>, Refusal>
    requires { at ≤ length unit.now }
    ensures { result ≡ fields4 big_endian offset_size unit.now at }
{
    let width = offset_size as usize;
    let (abbreviations, _) = (Cursor { at })
        .fixed(unit, width, big_endian)
        .ok_or(Refusal(Cause::ShortHeader))?;
    let size_at = at + width;
    if unit.len() <= size_at {
        return Err(Refusal(Cause::ShortHeader));
    }
    let address_size = unit[size_at];
    if !size_known(address_size) {
        return Err(Refusal(Cause::OutsideDomain));
    }
    Ok(Some(UnitHeader {
        encoding: Encoding {
            version: 4,
            offset_size,
            address_size,
            big_endian,
        },
        unit_type: DW_UT_compile,
        abbreviations,
        first: UnitOffset((size_at + 1) as u64),
        end: unit.len(),
    }))
}

// The fields after the length, of a unit that ends where its length says.
fn header_fields(
    unit: &[u8],
    offset_size: u8,
    big_endian: bool,
) -> Result<Option<UnitHeader>, Refusal>
    ensures { result ≡ header_fields big_endian offset_size unit.now }
{
    let (version, next) = (Cursor {
        at: length_bytes(offset_size),
    })
    .fixed(unit, 2, big_endian)
    .ok_or(Refusal(Cause::ShortHeader))?;
    let at = next.at;
    match version {
        5 => fields_5(unit, at, offset_size, big_endian),
        4 => fields_4(unit, at, offset_size, big_endian),
        _ => Err(Refusal(Cause::OutsideDomain)),
    }
}

// The header of a unit that is the so many bytes after its length field; all of them must be there.
fn header_in(
    section: &[u8],
    unit_length: u64,
    offset_size: u8,
    big_endian: bool,
) -> Result<Option<UnitHeader>, Refusal>
    requires { length_bytes offset_size ≤ length section.now }
    ensures { result ≡ header_in big_endian offset_size section.now unit_length }
{
    let from = length_bytes(offset_size);
    if unit_length > (left(section, from) as u64) {
        return Err(Refusal(Cause::ShortHeader));
    }
    let end = from + (unit_length as usize);
    header_fields(&section[..end], offset_size, big_endian)
}

// The header of the first unit of a section, by the byte order that it is told; none of an empty section. Refused with
// 1 where it is cut short, 2 for a value outside the domain.
pub fn unit_header(section: &[u8], big_endian: bool) -> Result<Option<UnitHeader>, Refusal>
    ensures { result ≡ header_of big_endian section.now }
{
    if section.len() == 0 {
        return Ok(None);
    }
    let (length, _) = (Cursor { at: 0 })
        .fixed(section, 4, big_endian)
        .ok_or(Refusal(Cause::ShortHeader))?;
    if length == ESCAPE_64 {
        let (wide, _) = (Cursor { at: 4 })
            .fixed(section, 8, big_endian)
            .ok_or(Refusal(Cause::ShortHeader))?;
        return header_in(section, wide, 8, big_endian);
    }
    if length >= FIRST_RESERVED {
        return Err(Refusal(Cause::OutsideDomain));
    }
    header_in(section, length, 4, big_endian)
}

// The part of a section that a unit is: nothing of the unit is read past it.
pub fn unit_part<'a>(section: &'a [u8], h: UnitHeader) -> &'a [u8]
    ensures { result.now ≡ take h.end section.now }
{
    &section[..h.end.min(section.len())]
}
