// A bundle: the sections of one unit in one run of bytes, as the programs read it from standard input.
#![tactic(auto)]

ghost use Rattle.std.specs.Prelude.{◌≡◌};
ghost use Rattle.readers.specs.Fields.{part_of};
ghost use Rattle.bundle.specs.Bundle.{bundle_of, frame_of, version_of, part, debug_ranges_part, sections_of};

use readers::cursor::{Cursor, Encoding};
use readers::fields::Field;
use readers::layouts::BLOCK4;

// The most bytes that a bundle may have, its first length included.
pub const MOST: usize = 65536;

// Where each section stands in the bundle.
#[derive(Clone, Copy)]
pub struct Bundle {
    pub unit: Field,
    pub abbreviations: Field,
    pub locations: Field,
    pub ranges: Field,
    pub addresses: Field,
    pub debug_ranges: Field,
}

// A section of the bundle: a big-endian length of four bytes, and so many bytes.
fn section(s: &[u8], at: usize) -> Option<Field>
    ensures { result ≡ part s.now at }
{
    let e = Encoding {
        version: 5,
        offset_size: 4,
        address_size: 8,
        big_endian: true,
    };
    (Cursor { at }).field(s, BLOCK4, e)
}

// The version byte, 0 where there is none.
fn version(s: &[u8]) -> u8
    ensures { result ≡ version_of s.now }
{
    s.get(4).copied().unwrap_or(0)
}

// Whether the length of the rest and the version byte are right.
fn frame(s: &[u8]) -> bool
    ensures { result ≡ frame_of s.now }
{
    if s.len() > MOST || s.len() < 5 {
        return false;
    }
    let Some((length, _)) = (Cursor { at: 0 }).fixed(s, 4, true) else {
        return false;
    };
    let v = version(s);
    length == (s.len() - 4) as u64 && (v == 1 || v == 2)
}

// The last section, .debug_ranges, which version 2 has; in version 1 it is empty.
fn debug_ranges_section(s: &[u8], at: usize) -> Option<Field>
    ensures { result ≡ debug_ranges_part s.now at }
{
    if version(s) == 2 {
        return section(s, at);
    }
    Some(Field {
        value: 0,
        start: at,
        end: at,
    })
}

// The sections, one after the other, with nothing after them.
fn sections(s: &[u8]) -> Option<Bundle>
    ensures { result ≡ sections_of s.now }
{
    let unit = section(s, 5)?;
    let abbreviations = section(s, unit.end)?;
    let locations = section(s, abbreviations.end)?;
    let ranges = section(s, locations.end)?;
    let addresses = section(s, ranges.end)?;
    let debug_ranges = debug_ranges_section(s, addresses.end)?;
    if debug_ranges.end != s.len() {
        return None;
    }
    Some(Bundle {
        unit,
        abbreviations,
        locations,
        ranges,
        addresses,
        debug_ranges,
    })
}

// The bytes of a section of the bundle.
pub fn section_bytes<'a>(s: &'a [u8], section: Field) -> &'a [u8]
    ensures { result.now ≡ part_of s.now section }
{
    section.expression(s)
}

// Reads a bundle: the length of the rest, version 1 or 2, and the sections.
pub fn read_bundle(s: &[u8]) -> Option<Bundle>
    ensures { result ≡ bundle_of s.now }
{
    if frame(s) {
        return sections(s);
    }
    None
}
