// The call with tables of its own, by tiers: shorter tables take less time to clear.
ghost use Rattle.std.specs.Prelude.{◌≡◌, ◌*◌, ◌≤◌, length};
ghost use Rattle.rewriting.specs.Outputs.{room_of};
ghost use Rattle.collector.specs.Call.{own_room};
ghost use Rattle.collector.specs.Inner.Tiers.{Left, is_full, made_of};

use crate::calls::collector_collect_lent;

// "Entry table full" and "reference table full".
const FULL: u64 = 10;

const FULL_REFERENCES: u64 = 11;

// What a call is given but for the slices that it writes.
#[derive(Clone, Copy)]
pub(crate) struct Inputs<'a> {
    pub(crate) section: &'a [u8],
    pub(crate) abbreviations: &'a [u8],
    pub(crate) locations: &'a [u8],
    pub(crate) ranges: &'a [u8],
    pub(crate) addresses: &'a [u8],
    pub(crate) debug_ranges: &'a [u8],
    pub(crate) tags: &'a [u8],
    pub(crate) treatments: &'a [u8],
    pub(crate) ranges_base: u64,
    pub(crate) type_units: u64,
    pub(crate) big_endian: u64,
    pub(crate) fixed_addresses: u64,
}

impl Inputs<'_> {
    // Whether the unit is likely to have room in tables that are made for a section of so many bytes, seven for each
    // entry (compilers' units have no less), and for abbreviations of so many, five for each declaration (none takes
    // less).
    pub(crate) fn is_within(self, most: usize, most_abbreviations: usize) -> bool {
        self.section.len() <= most && self.abbreviations.len() <= most_abbreviations
    }
}

// Whether an answer is that a table is full.
pub(crate) fn is_full(answer: u64) -> bool
    ensures { result ≡ is_full answer }
{
    answer == FULL || answer == FULL_REFERENCES
}

// With tables of so many entries and references, and an index of so many declarations.
// No struct for the slices that are written: each contract would have to say that their lengths stay.
pub(crate) fn collect_in<
    const ENTRIES: usize,
    const TWICE_ENTRIES: usize,
    const REFERENCES: usize,
    const TWICE_REFERENCES: usize,
    const DECLARATIONS: usize,
>(
    inputs: Inputs<'_>,
    map: &mut [u8],
    range_list: &mut [u8],
    location_list: &mut [u8],
    string_list: &mut [u8],
    out: &mut [u8],
    counts: &mut [u8],
) -> u64
    requires entries { ENTRIES ≤ 2048 }
    requires twice_entries { TWICE_ENTRIES ≡ 2 * ENTRIES }
    requires references { REFERENCES ≤ 8192 }
    requires twice_references { TWICE_REFERENCES ≡ 2 * REFERENCES }
    requires declarations { DECLARATIONS ≤ 2048 }
    ensures { Left (made_of inputs.entry (room_of ENTRIES TWICE_REFERENCES ENTRIES ENTRIES ENTRIES ENTRIES REFERENCES
        (length map.old) (length range_list.old)
        (length location_list.old) (length string_list.old) (length out.old)))
        result (length counts.old) counts.new (length map.old) map.new
        (length range_list.old) range_list.new (length location_list.old)
        location_list.new (length string_list.old) string_list.new
        (length out.old) out.new }
{
    collector_collect_lent(
        inputs.section,
        inputs.abbreviations,
        inputs.locations,
        inputs.ranges,
        inputs.addresses,
        inputs.debug_ranges,
        inputs.tags,
        inputs.treatments,
        inputs.ranges_base,
        inputs.type_units,
        inputs.big_endian,
        inputs.fixed_addresses,
        &mut [0; DECLARATIONS],
        &mut [0; ENTRIES],
        &mut [0; ENTRIES],
        &mut [0; ENTRIES],
        &mut [0; ENTRIES],
        &mut [0; ENTRIES],
        &mut [0; REFERENCES],
        &mut [0; TWICE_REFERENCES],
        &mut [0; TWICE_ENTRIES],
        map,
        range_list,
        location_list,
        string_list,
        out,
        counts,
    )
}

// With the two longest tiers.
fn collect_longest(
    inputs: Inputs<'_>,
    map: &mut [u8],
    range_list: &mut [u8],
    location_list: &mut [u8],
    string_list: &mut [u8],
    out: &mut [u8],
    counts: &mut [u8],
) -> u64
    ensures { Left (made_of inputs.entry (own_room (length map.old) (length range_list.old)
        (length location_list.old) (length string_list.old) (length out.old)))
        result (length counts.old) counts.new (length map.old) map.new
        (length range_list.old) range_list.new (length location_list.old)
        location_list.new (length string_list.old) string_list.new
        (length out.old) out.new }
{
    if inputs.is_within(7168, 5120) {
        let answer = collect_in::<1024, 2048, 2048, 4096, 1024>(
            inputs,
            map,
            range_list,
            location_list,
            string_list,
            out,
            counts,
        );
        if !is_full(answer) {
            return answer;
        }
    }
    collect_in::<2048, 4096, 8192, 16384, 2048>(
        inputs,
        map,
        range_list,
        location_list,
        string_list,
        out,
        counts,
    )
}

// With the three longer tiers. A function of its own: a frame that holds the longest tables costs each call time.
#[inline(never)]
pub(crate) fn collect_longer(
    inputs: Inputs<'_>,
    map: &mut [u8],
    range_list: &mut [u8],
    location_list: &mut [u8],
    string_list: &mut [u8],
    out: &mut [u8],
    counts: &mut [u8],
) -> u64
    ensures { Left (made_of inputs.entry (own_room (length map.old) (length range_list.old)
        (length location_list.old) (length string_list.old) (length out.old)))
        result (length counts.old) counts.new (length map.old) map.new
        (length range_list.old) range_list.new (length location_list.old)
        location_list.new (length string_list.old) string_list.new
        (length out.old) out.new }
{
    if inputs.is_within(2688, 2560) {
        let answer = collect_in::<384, 768, 768, 1536, 512>(
            inputs,
            map,
            range_list,
            location_list,
            string_list,
            out,
            counts,
        );
        if !is_full(answer) {
            return answer;
        }
    }
    collect_longest(
        inputs,
        map,
        range_list,
        location_list,
        string_list,
        out,
        counts,
    )
}
