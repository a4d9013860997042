// The marks of a unit spread by a work list, so that the rounds that follow find nothing to do. What is proved of it is
// that each mark it raises is justified; that it raises all of them is left to the rounds. So nothing is known of what
// the work column holds, nor of the hints: each number taken from them is tested.
ghost use Rattle.std.specs.Prelude.{◌≡◌, ◌/◌, ◌<◌, ◌≤◌, length};
ghost use Rattle.marking.specs.Inner.Passes.{WithParents, WithBoth, ParentsFit, PairsFit, Spread};

use crate::columns::place;
use crate::rules::{along_at, down, down_at, up_at};
use readers::offsets::EntryIndex;

// ---- the work column: for each entry the end of its descendants, then a stack of entries; `top` is past the stack

// The index past the last entry of a column of so many.
fn past_last(entries: usize) -> EntryIndex
    ensures { result.0 ≡ entries }
{
    EntryIndex(entries as u64)
}

// An index as the work column holds it: of one that it has no room for, the largest number.
fn stored(i: EntryIndex) -> u32 {
    u32::try_from(i.0).unwrap_or(u32::MAX)
}

// The end of entry k's descendants in a tree that ends at n, past k at least.
fn end_of(work: &[u32], k: EntryIndex, n: EntryIndex) -> EntryIndex
    requires { k.0 < n.0 }
    ensures past { k.0 < result.0 }
    ensures inside { result.0 ≤ n.0 }
{
    let end = work.get(place(k)).map_or(0, |end| u64::from(*end));
    EntryIndex(end.clamp(k.0 + 1, n.0))
}

// The end that entry i has is this one at least.
fn raise_end(work: &mut [u32], i: EntryIndex, end: EntryIndex) {
    if let Some(known) = work.get_mut(place(i)) {
        *known = (*known).max(stored(end));
    }
}

// Entry i has its end, and its parent ends no sooner.
fn widen(parents: &[u64], work: &mut [u32], i: EntryIndex)
    requires { i.0 < length parents.now }
{
    let end = end_of(work, i, past_last(parents.len()));
    raise_end(work, i, end);
    let at = place(i);
    raise_end(work, EntryIndex(parents[at]), end);
}

// The ends of all entries' descendants, into a column of zeros, the last entry first.
fn subtree_ends(parents: &[u64], work: &mut [u32]) {
    for i in (0..parents.len() as u64).rev().map(EntryIndex) {
        widen(parents, work, i);
    }
}

// Entry i onto the stack.
fn push(work: &mut [u32], top: usize, i: EntryIndex) -> usize {
    if top >= work.len() {
        return top;
    }
    work[top] = stored(i);
    top + 1
}

// An entry that is now kept onto the stack, where its mark before was not one of a kept entry.
fn push_new(work: &mut [u32], top: usize, i: EntryIndex, before: u8) -> usize {
    if before >= 2 {
        return top;
    }
    push(work, top, i)
}

// Every kept entry onto the empty stack.
fn push_kept(marks: &[u8], work: &mut [u32]) -> usize {
    let mut top = marks.len();
    for i in (0..marks.len() as u64).rev().map(EntryIndex) {
        if marks[place(i)] >= 2 {
            top = push(work, top, i);
        }
    }
    top
}

// ---- one mark; where an entry is now kept that was not, it goes onto the stack

// Entry k becomes live where its parent is.
fn reach_child(
    parents: &[u64],
    marks: &mut [u8],
    work: &mut [u32],
    k: EntryIndex,
    top: usize,
) -> usize
    requires parents_fit { ParentsFit parents.now marks.old }
    requires k_in_bounds { k.0 < length marks.old }
    ensures { Spread (WithParents parents.now) marks.old marks.new }
{
    let at = place(k);
    let before = marks[at];
    if !down_at(parents, marks, at) {
        return top;
    }
    push_new(work, top, k, before)
}

// The parent of entry i is retained where i is kept.
fn lift(parents: &[u64], marks: &mut [u8], work: &mut [u32], i: EntryIndex, top: usize) -> usize
    requires parents_fit { ParentsFit parents.now marks.old }
    requires i_in_bounds { i.0 < length marks.old }
    ensures { Spread (WithParents parents.now) marks.old marks.new }
{
    let at = place(i);
    if !up_at(parents, marks, at) {
        return top;
    }
    push(work, top, EntryIndex(parents[at]))
}

// The descendants of entry i become live where it is. Those of a live one are live already, and are passed over.
fn descend(parents: &[u64], marks: &mut [u8], work: &mut [u32], i: EntryIndex, top: usize) -> usize
    requires { ParentsFit parents.now marks.old }
    ensures { Spread (WithParents parents.now) marks.old marks.new }
{
    let n = past_last(marks.len());
    if i.0 >= n.0 {
        return top;
    }
    let end = end_of(work, i, n);
    let mut to = top;
    let mut k = EntryIndex(i.0 + 1);
    // No for: past a live entry all its descendants are passed at once.
    while k.0 < end.0 {
        let at = place(k);
        if marks[at] >= 3 {
            k = end_of(work, k, end);
        } else {
            to = reach_child(parents, marks, work, k, to);
            k = EntryIndex(k.0 + 1);
        }
    }
    to
}

// What reference j names becomes live where its holder is kept, and so do its descendants.
fn follow_at(
    parents: &[u64],
    pairs: &[u64],
    marks: &mut [u8],
    work: &mut [u32],
    j: usize,
    top: usize,
) -> usize
    requires parents_fit { ParentsFit parents.now marks.old }
    requires pairs_fit { PairsFit pairs.now marks.old }
    requires j_in_bounds { j < length pairs.now / 2 }
    ensures { Spread (WithBoth parents.now pairs.now)
        marks.old marks.new }
{
    let t = EntryIndex(pairs[2 * j + 1]);
    let at = place(t);
    let before = marks[at];
    if !along_at(pairs, marks, j) {
        return top;
    }
    let to = push_new(work, top, t, before);
    descend(parents, marks, work, t, to)
}

// ---- the references of an entry

// The first pair of a holder, where pairs stand by holder, by halves.
fn search_pair(pairs: &[u64], holder: EntryIndex) -> usize
    ensures { result ≤ length pairs.now / 2 }
{
    let (whole, _) = pairs.as_chunks::<2>();
    whole.partition_point(|pair| pair[0] < holder.0)
}

// Whether the pairs of a holder start at pair j, where pairs stand by holder: the one before it is of a holder below.
fn starts_at(pairs: &[u64], holder: EntryIndex, j: usize) -> bool
    requires { j ≤ length pairs.now / 2 }
{
    (j == pairs.len() / 2 || pairs[2 * j] >= holder.0) && (j == 0 || pairs[2 * (j - 1)] < holder.0)
}

// Where the references of a holder start, by where those of each entry end; past all of them where that is not told.
fn references_start(reference_ends: &[u64], holder: EntryIndex) -> u64 {
    if holder.0 == 0 {
        return 0;
    }
    let before = place(EntryIndex(holder.0 - 1));
    reference_ends.get(before).map_or(u64::MAX, |end| *end)
}

// The first pair of a holder, where pairs stand by holder. Where each reference made a pair it stands where the holder's
// references start; that is tried first.
fn first_pair(pairs: &[u64], holder: EntryIndex, reference_ends: &[u64]) -> usize
    ensures { result ≤ length pairs.now / 2 }
{
    let j = references_start(reference_ends, holder) as usize;
    if j <= pairs.len() / 2 && starts_at(pairs, holder, j) {
        return j;
    }
    search_pair(pairs, holder)
}

// All references of a holder.
fn follow(
    parents: &[u64],
    pairs: &[u64],
    marks: &mut [u8],
    work: &mut [u32],
    holder: EntryIndex,
    top: usize,
    reference_ends: &[u64],
) -> usize
    requires parents_fit { ParentsFit parents.now marks.old }
    requires pairs_fit { PairsFit pairs.now marks.old }
    ensures { Spread (WithBoth parents.now pairs.now)
        marks.old marks.new }
{
    let mut to = top;
    for j in first_pair(pairs, holder, reference_ends)..pairs.len() / 2 {
        if pairs[2 * j] != holder.0 {
            return to;
        }
        to = follow_at(parents, pairs, marks, work, j, to);
    }
    to
}

// ---- the work list

// The entry at a place of the stack: its references and its parent.
fn visit(
    parents: &[u64],
    pairs: &[u64],
    marks: &mut [u8],
    work: &mut [u32],
    top: usize,
    reference_ends: &[u64],
) -> usize
    requires parents_fit { ParentsFit parents.now marks.old }
    requires pairs_fit { PairsFit pairs.now marks.old }
    ensures { Spread (WithBoth parents.now pairs.now)
        marks.old marks.new }
{
    if top >= work.len() {
        return top;
    }
    let i = EntryIndex(u64::from(work[top]));
    if place(i) >= marks.len() {
        return top;
    }
    let to = follow(parents, pairs, marks, work, i, top, reference_ends);
    lift(parents, marks, work, i, to)
}

// Entries are taken off the stack until it is empty. Each was put there once, when it was first kept, so as many turns
// as entries are enough, where the column has room for each index; the rounds do the rest.
fn visit_all(
    parents: &[u64],
    pairs: &[u64],
    marks: &mut [u8],
    work: &mut [u32],
    top: usize,
    reference_ends: &[u64],
)
    requires parents_fit { ParentsFit parents.now marks.old }
    requires pairs_fit { PairsFit pairs.now marks.old }
    ensures { Spread (WithBoth parents.now pairs.now)
        marks.old marks.new }
{
    let mut to = top;
    for _ in 0..marks.len() {
        if to <= marks.len() {
            return;
        }
        to = visit(parents, pairs, marks, work, to - 1, reference_ends);
    }
}

// Spreads the marks that `start` left. The work column is lent as zeros; where it has not two places an entry nothing
// is done. Where the references of each entry end is a hint, and may be empty.
pub(crate) fn spread(
    parents: &[u64],
    pairs: &[u64],
    marks: &mut [u8],
    work: &mut [u32],
    reference_ends: &[u64],
)
    requires parents_fit { ParentsFit parents.now marks.old }
    requires pairs_fit { PairsFit pairs.now marks.old }
    ensures { Spread (WithBoth parents.now pairs.now)
        marks.old marks.new }
{
    if work.len() / 2 < marks.len() {
        return;
    }
    subtree_ends(parents, work);
    down(parents, marks);
    let top = push_kept(marks, work);
    visit_all(parents, pairs, marks, work, top, reference_ends);
}
