// The marks of a bundle's unit: how many entries it has and how many are kept, then a line for each entry, its offset
// and its mark.
use crate::Told;
use bundle::{Bundle, section_bytes};
use marking::units::UnitMarks;
use readers::refusal::Refusal;
use std::io;
use std::io::Write;

// The sections of a unit, and what is told of it.
#[derive(Clone, Copy)]
pub struct Unit<'a> {
    pub section: &'a [u8],
    pub abbreviations: &'a [u8],
    pub locations: &'a [u8],
    pub ranges: &'a [u8],
    pub addresses: &'a [u8],
    pub debug_ranges: &'a [u8],
    pub told: Told<'a>,
}

// The unit of a bundle.
pub fn unit_of<'a>(s: &'a [u8], told: Told<'a>) -> Option<Unit<'a>> {
    let b = bundle::read_bundle(s)?;
    Some(Unit {
        section: section_bytes(s, b.unit),
        abbreviations: section_bytes(s, b.abbreviations),
        locations: section_bytes(s, b.locations),
        ranges: section_bytes(s, b.ranges),
        addresses: section_bytes(s, b.addresses),
        debug_ranges: section_bytes(s, b.debug_ranges),
        told,
    })
}

// R retained, L live, D dead.
pub fn letter(mark: u8) -> char {
    match mark {
        3 => 'L',
        2 => 'R',
        1 => 'D',
        _ => '-',
    }
}

// Marks a unit, with tables of 8,192 references and as many entries as the caller has offsets and marks for, 2,048 at
// most. Never inlined, so that the tables are gone before anything is printed.
#[inline(never)]
pub fn mark(u: Unit<'_>, offsets: &mut [u64], marks: &mut [u8]) -> Result<UnitMarks, Refusal> {
    marking::units::mark_unit(
        u.section,
        u.abbreviations,
        u.locations,
        u.ranges,
        u.addresses,
        u.debug_ranges,
        u.told.keep.tags,
        u.told.keep.treatments,
        u.told.setting,
        &mut [0; 1024],
        offsets,
        &mut [0; 2048],
        &mut [0; 2048],
        &mut [0; 2048],
        marks,
        &mut [0; 8192],
        &mut [0; 16384],
        &mut [0; 4096],
    )
    .marks
}

// Prints the marks of a bundle's unit, by what is told of it; `bundle` where it is none.
pub fn list(to: &mut impl Write, s: &[u8], told: Told<'_>) -> io::Result<()> {
    let Some(u) = unit_of(s, told) else {
        return writeln!(to, "bundle");
    };
    let mut offsets = [0; 2048];
    let mut marks = [0; 2048];
    match mark(u, &mut offsets, &mut marks) {
        Ok(UnitMarks { entries, kept }) => {
            writeln!(to, "entries {entries} kept {kept}")?;
            for (offset, mark) in offsets.iter().zip(marks.iter()).take(entries) {
                writeln!(to, "{offset} {}", letter(*mark))?;
            }
            Ok(())
        }
        Err(refusal) => writeln!(to, "refused {refusal}"),
    }
}
