// The calls that crates/collector_c exports to hosts in C, and that laws speak of.
// No structs and no enums here: include/collector.h has each slice and each number as a parameter of its own.
ghost use Rattle.std.specs.Prelude.{◌≡◌, length};
ghost use Rattle.readers.specs.Choice.{zeros};
ghost use Rattle.rewriting.specs.Outputs.{room_of, answer_for, map_for, list_for, output_for, ranges_in, locations_in, strings_in};
ghost use Rattle.collector.specs.Call.{number_for, counts_for, collected_of, own_room};

use crate::answers::give;
use crate::own_tables::{Inputs, collect_in, collect_longer, is_full};
use marking::setting::Setting;
use rewriting::collect::collect;

// Thins the first unit of a section with tables that are lent. They are scratch, and zeros after the call.
pub fn collector_collect_lent<'a>(
    section: &[u8],
    abbreviations: &[u8],
    locations: &[u8],
    ranges: &'a [u8],
    addresses: &[u8],
    debug_ranges: &'a [u8],
    tags: &[u8],
    treatments: &[u8],
    ranges_base: u64,
    type_units: u64,
    big_endian: u64,
    fixed_addresses: u64,
    index: &mut [u64],
    offsets: &mut [u64],
    parents: &mut [u64],
    roots: &mut [u8],
    ends: &mut [u64],
    marks: &mut [u8],
    targets: &mut [u64],
    pairs: &mut [u64],
    work: &mut [u32],
    map: &mut [u8],
    range_list: &mut [u8],
    location_list: &mut [u8],
    string_list: &mut [u8],
    out: &mut [u8],
    counts: &mut [u8],
) -> u64
    ensures { let room = room_of (length marks.old) (length pairs.old) (length offsets.old)
        (length parents.old) (length roots.old) (length ends.old)
        (length targets.old) (length map.old) (length range_list.old)
        (length location_list.old) (length string_list.old) (length out.old) in
        let answer = collected_of section.now abbreviations.now locations.now
        ranges.now addresses.now debug_ranges.now tags.now
        treatments.now ranges_base type_units big_endian fixed_addresses room in
        (result ≡ number_for (length counts.old) (answer_for answer))
        × (counts.new ≡ counts_for (length counts.old) (answer_for answer))
        × (map.new ≡ map_for (length map.old) answer)
        × (range_list.new ≡ list_for ranges_in (length range_list.old) answer)
        × (location_list.new ≡ list_for locations_in (length location_list.old) answer)
        × (string_list.new ≡ list_for strings_in (length string_list.old) answer)
        × (out.new ≡ output_for (length out.old) answer)
        × (index.new ≡ zeros (length index.old))
        × (offsets.new ≡ zeros (length offsets.old))
        × (parents.new ≡ zeros (length parents.old))
        × (roots.new ≡ zeros (length roots.old))
        × (ends.new ≡ zeros (length ends.old))
        × (marks.new ≡ zeros (length marks.old))
        × (targets.new ≡ zeros (length targets.old))
        × (pairs.new ≡ zeros (length pairs.old))
        × (work.new ≡ zeros (length work.old)) }
{
    let setting = Setting {
        ranges_base,
        big_endian: big_endian > 0,
        fixed_addresses: fixed_addresses > 0,
    };
    let answer = collect(
        section,
        abbreviations,
        locations,
        ranges,
        addresses,
        debug_ranges,
        tags,
        treatments,
        setting,
        type_units > 0,
        index,
        offsets,
        parents,
        roots,
        ends,
        marks,
        targets,
        pairs,
        work,
        map,
        range_list,
        location_list,
        string_list,
        out,
    );
    give(answer, counts)
}

// The same with tables of its own, of 2,048 entries and 8,192 references. Shorter ones are tried first where they may
// do: an answer that is neither 10 nor 11 is the same with longer ones.
pub fn collector_collect<'a>(
    section: &[u8],
    abbreviations: &[u8],
    locations: &[u8],
    ranges: &'a [u8],
    addresses: &[u8],
    debug_ranges: &'a [u8],
    tags: &[u8],
    treatments: &[u8],
    ranges_base: u64,
    type_units: u64,
    big_endian: u64,
    fixed_addresses: u64,
    map: &mut [u8],
    range_list: &mut [u8],
    location_list: &mut [u8],
    string_list: &mut [u8],
    out: &mut [u8],
    counts: &mut [u8],
) -> u64
    ensures { let room = own_room (length map.old) (length range_list.old)
        (length location_list.old) (length string_list.old) (length out.old) in
        let answer = collected_of section.now abbreviations.now locations.now
        ranges.now addresses.now debug_ranges.now tags.now
        treatments.now ranges_base type_units big_endian fixed_addresses room in
        (result ≡ number_for (length counts.old) (answer_for answer))
        × (counts.new ≡ counts_for (length counts.old) (answer_for answer))
        × (map.new ≡ map_for (length map.old) answer)
        × (range_list.new ≡ list_for ranges_in (length range_list.old) answer)
        × (location_list.new ≡ list_for locations_in (length location_list.old) answer)
        × (string_list.new ≡ list_for strings_in (length string_list.old) answer)
        × (out.new ≡ output_for (length out.old) answer) }
{
    let inputs = Inputs {
        section,
        abbreviations,
        locations,
        ranges,
        addresses,
        debug_ranges,
        tags,
        treatments,
        ranges_base,
        type_units,
        big_endian,
        fixed_addresses,
    };
    if inputs.is_within(448, 640) {
        let answer = collect_in::<64, 128, 128, 256, 128>(
            inputs,
            map,
            range_list,
            location_list,
            string_list,
            out,
            counts,
        );
        if !is_full(answer) {
            return answer;
        }
    }
    collect_longer(
        inputs,
        map,
        range_list,
        location_list,
        string_list,
        out,
        counts,
    )
}
