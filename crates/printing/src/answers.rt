// What collect makes of a bundle's unit: the printout of document 01, or the whole answer on one line.
use crate::Told;
use crate::marks::{Unit, letter, mark, unit_of};
use marking::units::UnitMarks;
use readers::offsets::UnitOffset;
use readers::refusal::Refusal;
use rewriting::collect::{Collected, Counts};
use std::fmt::Display;
use std::io;
use std::io::Write;

pub fn refused(to: &mut impl Write, refusal: impl Display + Drop) -> io::Result<()> {
    writeln!(to, "refused {refusal}")
}

// What collect answered and wrote, where it refused nothing.
#[derive(Clone, Copy)]
struct Thinned<'a> {
    rewritten: bool,
    counts: Counts,
    map: &'a [u8],
    ranges: &'a [u8],
    locations: &'a [u8],
    strings: &'a [u8],
    out: &'a [u8],
}

// ---- the printout

// The new offset of an entry: of an untouched unit the old one, and `-` of a dead one.
fn new_offset(to: &mut impl Write, a: Thinned<'_>, old: u64) -> io::Result<()> {
    if !a.rewritten {
        return write!(to, " {old}");
    }
    match rewriting::map::new_offset(a.map, a.counts.places, UnitOffset(old)) {
        Some(new) => write!(to, " {}", new.0),
        None => write!(to, " -"),
    }
}

// The counts, then a line an entry: its offset, its mark, its new offset.
fn entries(to: &mut impl Write, offsets: &[u64], marks: &[u8], a: Thinned<'_>) -> io::Result<()> {
    writeln!(to, "entries {} kept {}", a.counts.entries, a.counts.kept)?;
    for (offset, mark) in offsets.iter().zip(marks.iter()).take(a.counts.entries) {
        write!(to, "{offset} {}", letter(*mark))?;
        new_offset(to, a, *offset)?;
        writeln!(to)?;
    }
    Ok(())
}

// The marks of the unit, beside what collect answered.
fn marked(to: &mut impl Write, u: Unit<'_>, a: Thinned<'_>) -> io::Result<()> {
    let mut offsets = [0; 2048];
    let mut marks = [0; 2048];
    match mark(u, &mut offsets, &mut marks) {
        Ok(
            UnitMarks {
                entries: _,
                kept: _,
            },
        ) => entries(to, &offsets, &marks, a),
        Err(refusal) => refused(to, refusal),
    }
}

// ---- the whole answer on one line

// Numbers in brackets, or that the list is absent.
fn list(to: &mut impl Write, name: &str, bytes: &[u8], count: Option<usize>) -> io::Result<()> {
    write!(to, " {name} ")?;
    match count {
        None => write!(to, "absent"),
        Some(n) => numbers(to, bytes, n),
    }
}

// What stands before a list's number i.
fn comma(i: usize) -> &'static str {
    if i == 0 { "" } else { "," }
}

fn numbers(to: &mut impl Write, bytes: &[u8], n: usize) -> io::Result<()> {
    write!(to, "[")?;
    for i in 0..n {
        write!(to, "{}{}", comma(i), rewriting::lists::number_at(bytes, i))?;
    }
    write!(to, "]")
}

fn places(to: &mut impl Write, map: &[u8], n: usize) -> io::Result<()> {
    write!(to, " map ")?;
    if n == 0 {
        return write!(to, "-");
    }
    for i in 0..n {
        let old = rewriting::map::old_at(map, i).0;
        let new = rewriting::map::new_at(map, i).0;
        write!(
            to,
            "{}{old}>{new}@{}",
            comma(i),
            rewriting::map::depth_at(map, i)
        )?;
    }
    Ok(())
}

// Bytes after a name, `-` where there are none.
pub fn hex(to: &mut impl Write, name: &[u8], bytes: &[u8]) -> io::Result<()> {
    to.write_all(name)?;
    write!(to, " ")?;
    if bytes.is_empty() {
        return write!(to, "-");
    }
    for byte in bytes {
        write!(to, "{byte:02x}")?;
    }
    Ok(())
}

fn line(to: &mut impl Write, a: Thinned<'_>) -> io::Result<()> {
    let c = a.counts;
    let answer = if a.rewritten {
        "rewritten"
    } else {
        "untouched"
    };
    write!(to, "{answer} entries {} kept {}", c.entries, c.kept)?;
    places(to, a.map, c.places)?;
    list(to, "ranges", a.ranges, c.ranges)?;
    list(to, "locations", a.locations, c.locations)?;
    list(to, "strings", a.strings, c.strings)?;
    hex(to, b" bytes", &a.out[..c.bytes.min(a.out.len())])?;
    writeln!(to)
}

// ---- bundles

// What collect makes of a unit, in tables of 2,048 entries and 8,192 references and 4,096 map places. Never inlined, so
// that the tables are gone before anything is printed.
#[inline(never)]
fn collect(
    u: Unit<'_>,
    map: &mut [u8],
    ranges: &mut [u8],
    locations: &mut [u8],
    strings: &mut [u8],
    out: &mut [u8],
) -> Result<Collected, Refusal> {
    rewriting::collect::collect(
        u.section,
        u.abbreviations,
        u.locations,
        u.ranges,
        u.addresses,
        u.debug_ranges,
        u.told.keep.tags,
        u.told.keep.treatments,
        u.told.setting,
        false,
        &mut [0; 1024],
        &mut [0; 2048],
        &mut [0; 2048],
        &mut [0; 2048],
        &mut [0; 2048],
        &mut [0; 2048],
        &mut [0; 8192],
        &mut [0; 16384],
        &mut [0; 4096],
        map,
        ranges,
        locations,
        strings,
        out,
    )
}

// What becomes of a unit, in 4,096 map places, 8,192 numbers a list and 65,536 output bytes. What is lent for the
// answer holds no zeros before the call. The arrays come first, for behind a branch they are cleared twice; never
// inlined, for no other call needs them on the stack.
#[inline(never)]
fn of_unit<W: Write, F: Fn(&mut W, Unit<'_>, Thinned<'_>) -> io::Result<()>>(
    to: &mut W,
    u: Unit<'_>,
    print: F,
) -> io::Result<()>
    requires { F.IsAlwaysCallable print }
{
    let mut map = [7; 98304];
    let mut ranges = [7; 65536];
    let mut locations = [7; 65536];
    let mut strings = [7; 65536];
    let mut out = [7; 65536];
    let (rewritten, counts) = match collect(
        u,
        &mut map,
        &mut ranges,
        &mut locations,
        &mut strings,
        &mut out,
    ) {
        Ok(Collected::Untouched(c)) => (false, c),
        Ok(Collected::Rewritten(c)) => (true, c),
        Err(refusal) => return refused(to, refusal),
    };
    let answer = Thinned {
        rewritten,
        counts,
        map: &map,
        ranges: &ranges,
        locations: &locations,
        strings: &strings,
        out: &out,
    };
    print(to, u, answer)
}

// What becomes of a bundle's unit.
fn answered<W: Write, F: Fn(&mut W, Unit<'_>, Thinned<'_>) -> io::Result<()>>(
    to: &mut W,
    s: &[u8],
    told: Told<'_>,
    print: F,
) -> io::Result<()>
    requires { F.IsAlwaysCallable print }
{
    match unit_of(s, told) {
        Some(u) => of_unit(to, u, print),
        None => writeln!(to, "bundle"),
    }
}

// Prints the entries of a bundle's unit, by what is told of it, with their marks and new offsets; `refused` and a
// number; `bundle` where it is none.
pub fn thin(to: &mut impl Write, s: &[u8], told: Told<'_>) -> io::Result<()> {
    answered(to, s, told, |to, u, a| marked(to, u, a))
}

// Prints all that collect answers for a bundle's unit, on one line.
pub fn answer(to: &mut impl Write, s: &[u8], told: Told<'_>) -> io::Result<()> {
    answered(to, s, told, |to, _, a| line(to, a))
}
