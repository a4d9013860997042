// Cases of collect that say what they lend: settings, the bytes of a keep list's tags and of its treatments, then a
// bundle. Nothing that is written holds zeros before the call; after it all of the map, the lists and the output is
// printed.
ghost use Rattle.std.specs.Prelude.{◌≤◌};

use crate::Told;
use crate::answers::{hex, refused};
use crate::keep_list::KeepList;
use crate::lengths::size;
use crate::marks::{Unit, unit_of};
use marking::setting::Setting;
use readers::cursor::Cursor;
use readers::refusal::Refusal;
use rewriting::collect::{Collected, Counts};
use std::io;
use std::io::Write;

// ---- settings: numbers of eight bytes, big-endian

// In the order in which they stand.
#[derive(Clone, Copy)]
enum Which {
    Index,
    Offsets,
    Parents,
    Roots,
    Ends,
    Marks,
    Targets,
    Pairs,
    Map,
    Ranges,
    Locations,
    Strings,
    Output,
    RangesBase,
    TypeUnits,
    BigEndian,
    FixedAddresses,
    Tags,
    Treatments,
}

// The bytes of all of them.
const SETTINGS: usize = 152;

#[derive(Clone, Copy)]
struct Settings<'a>(&'a [u8]);

impl Settings<'_> {
    fn number(self, which: Which) -> u64 {
        let c = Cursor {
            at: 8 * which as usize,
        };
        match c.fixed(self.0, 8, true) {
            Some((n, _)) => n,
            None => 0,
        }
    }

    // What is told of the unit.
    fn setting(self) -> Setting {
        Setting {
            ranges_base: self.number(Which::RangesBase),
            big_endian: self.number(Which::BigEndian) != 0,
            fixed_addresses: self.number(Which::FixedAddresses) != 0,
        }
    }

    // How much is lent of so much.
    fn length(self, which: Which, most: usize) -> usize
        ensures { result ≤ most }
    {
        self.number(which).min(most as u64) as usize
    }

    // What is lent of an array, and what lies behind it.
    fn parts<'a, T>(self, which: Which, a: &'a [T]) -> (&'a [T], &'a [T]) {
        a.split_at(self.length(which, a.len()))
    }

    fn lent<'a, T>(self, which: Which, a: &'a mut [T]) -> &'a mut [T] {
        let n = self.length(which, a.len());
        &mut a[..n]
    }
}

// ---- the call

// The arrays of which a part is lent.
#[derive(Drop)]
struct Arrays {
    index: [u64; 1024],
    offsets: [u64; 2048],
    parents: [u64; 2048],
    roots: [u8; 2048],
    ends: [u64; 2048],
    marks: [u8; 2048],
    targets: [u64; 8192],
    pairs: [u64; 16384],
    map: [u8; 98304],
    ranges: [u8; 65536],
    locations: [u8; 65536],
    strings: [u8; 65536],
    out: [u8; 65536],
}

// What the arrays hold before the call.
const BYTE: u8 = 0xa5;

const NUMBER: u64 = 0xa5a5_a5a5_a5a5_a5a5;

// The answer for the bundle's unit.
fn collect(settings: Settings<'_>, u: Unit<'_>, a: &mut Arrays) -> Result<Collected, Refusal> {
    rewriting::collect::collect(
        u.section,
        u.abbreviations,
        u.locations,
        u.ranges,
        u.addresses,
        u.debug_ranges,
        u.told.keep.tags,
        u.told.keep.treatments,
        u.told.setting,
        settings.number(Which::TypeUnits) != 0,
        settings.lent(Which::Index, &mut a.index),
        settings.lent(Which::Offsets, &mut a.offsets),
        settings.lent(Which::Parents, &mut a.parents),
        settings.lent(Which::Roots, &mut a.roots),
        settings.lent(Which::Ends, &mut a.ends),
        settings.lent(Which::Marks, &mut a.marks),
        settings.lent(Which::Targets, &mut a.targets),
        settings.lent(Which::Pairs, &mut a.pairs),
        &mut [0xa5a5_a5a5; 4096],
        settings.lent(Which::Map, &mut a.map),
        settings.lent(Which::Ranges, &mut a.ranges),
        settings.lent(Which::Locations, &mut a.locations),
        settings.lent(Which::Strings, &mut a.strings),
        settings.lent(Which::Output, &mut a.out),
    )
}

// ---- what it leaves: a table's lent part zeros, and behind it what was there

// Whether each of these is x. By `fold`, which takes many at once: `all` can end early, and takes them one by one.
fn are_all<T: PartialEq + Drop>(a: &[T], x: T) -> bool {
    a.iter().fold(true, |so_far, y| so_far & (*y == x))
}

fn is_clean<T: PartialEq + Default + Drop>((lent, behind): (&[T], &[T]), before: T) -> bool {
    are_all(lent, T::default()) && are_all(behind, before)
}

fn tables_end(settings: Settings<'_>, a: &Arrays) -> bool {
    is_clean(settings.parts(Which::Index, &a.index), NUMBER)
        && is_clean(settings.parts(Which::Offsets, &a.offsets), NUMBER)
        && is_clean(settings.parts(Which::Parents, &a.parents), NUMBER)
        && is_clean(settings.parts(Which::Roots, &a.roots), BYTE)
        && is_clean(settings.parts(Which::Ends, &a.ends), NUMBER)
        && is_clean(settings.parts(Which::Marks, &a.marks), BYTE)
        && is_clean(settings.parts(Which::Targets, &a.targets), NUMBER)
        && is_clean(settings.parts(Which::Pairs, &a.pairs), NUMBER)
}

// Whether what lies behind the lent part is as it was.
fn is_kept(settings: Settings<'_>, which: Which, a: &[u8]) -> bool {
    are_all(settings.parts(which, a).1, BYTE)
}

fn outputs_end(settings: Settings<'_>, a: &Arrays) -> bool {
    is_kept(settings, Which::Map, &a.map)
        && is_kept(settings, Which::Ranges, &a.ranges)
        && is_kept(settings, Which::Locations, &a.locations)
        && is_kept(settings, Which::Strings, &a.strings)
        && is_kept(settings, Which::Output, &a.out)
}

// ---- lines

fn count(to: &mut impl Write, name: &str, c: Option<usize>) -> io::Result<()> {
    match c {
        None => write!(to, " {name} absent"),
        Some(n) => write!(to, " {name} {n}"),
    }
}

fn counts(to: &mut impl Write, answer: &str, c: Counts) -> io::Result<()> {
    write!(
        to,
        "{answer} entries {} kept {} places {} bytes {}",
        c.entries, c.kept, c.places, c.bytes
    )?;
    count(to, "ranges", c.ranges)?;
    count(to, "locations", c.locations)?;
    count(to, "strings", c.strings)?;
    writeln!(to)
}

fn answered(to: &mut impl Write, answer: Result<Collected, Refusal>) -> io::Result<()> {
    match answer {
        Ok(Collected::Untouched(c)) => counts(to, "untouched", c),
        Ok(Collected::Rewritten(c)) => counts(to, "rewritten", c),
        Err(refusal) => refused(to, refusal),
    }
}

fn lent_bytes(to: &mut impl Write, settings: Settings<'_>, a: &Arrays) -> io::Result<()> {
    hex(to, b"map", settings.parts(Which::Map, &a.map).0)?;
    hex(to, b"\nranges", settings.parts(Which::Ranges, &a.ranges).0)?;
    hex(
        to,
        b"\nlocations",
        settings.parts(Which::Locations, &a.locations).0,
    )?;
    hex(
        to,
        b"\nstrings",
        settings.parts(Which::Strings, &a.strings).0,
    )?;
    hex(to, b"\noutput", settings.parts(Which::Output, &a.out).0)?;
    writeln!(to)
}

// ---- cases

// The case of a unit. The arrays come first and it is never inlined, as `of_unit` of answers.rt.
#[inline(never)]
fn of_unit(to: &mut impl Write, settings: Settings<'_>, u: Unit<'_>) -> io::Result<()> {
    let mut a = Arrays {
        index: [NUMBER; 1024],
        offsets: [NUMBER; 2048],
        parents: [NUMBER; 2048],
        roots: [BYTE; 2048],
        ends: [NUMBER; 2048],
        marks: [BYTE; 2048],
        targets: [NUMBER; 8192],
        pairs: [NUMBER; 16384],
        map: [BYTE; 98304],
        ranges: [BYTE; 65536],
        locations: [BYTE; 65536],
        strings: [BYTE; 65536],
        out: [BYTE; 65536],
    };
    answered(to, collect(settings, u, &mut a))?;
    lent_bytes(to, settings, &a)?;
    writeln!(to, "{}", word(settings, &a))
}

fn case(
    to: &mut impl Write,
    settings: Settings<'_>,
    keep: KeepList<'_>,
    s: &[u8],
) -> io::Result<()> {
    let told = Told {
        setting: settings.setting(),
        keep,
    };
    match unit_of(s, told) {
        Some(u) => of_unit(to, settings, u),
        None => writeln!(to, "bundle"),
    }
}

// One word: whether tables and what was not lent are as they must be.
fn word(settings: Settings<'_>, a: &Arrays) -> &'static str {
    if !tables_end(settings, a) {
        "tables"
    } else if !outputs_end(settings, a) {
        "behind"
    } else {
        "clean"
    }
}

// Prints the case that stands first, after a line with its number. Answers what stands behind it, if there is a case.
fn first_case<'a>(to: &mut impl Write, s: &'a [u8], n: u64) -> io::Result<Option<&'a [u8]>> {
    let Some((settings, behind)) = s.split_at_checked(SETTINGS) else {
        return Ok(None);
    };
    let settings = Settings(settings);
    let (tags, behind) = settings.parts(Which::Tags, behind);
    let (treatments, behind) = settings.parts(Which::Treatments, behind);
    let (first, behind) = behind.split_at(size(behind));
    writeln!(to, "-- {n}")?;
    case(to, settings, KeepList { tags, treatments }, first)?;
    Ok(Some(behind))
}

// Prints each case.
pub fn list_all(to: &mut impl Write, s: &[u8]) -> io::Result<()> {
    let mut rest = s;
    for n in 1..65537 {
        if rest.is_empty() {
            return Ok(());
        }
        let Some(behind) = first_case(to, rest, n)? else {
            return Ok(());
        };
        rest = behind;
    }
    Ok(())
}
