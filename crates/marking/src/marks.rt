// Marks the survivors of a unit that is given as a graph: the parent of each entry, the references as pairs of entries,
// the roots. A mark is what gc.rs has as `Liveness`: 1 dead, 2 retained, 3 live.
ghost use Rattle.std.specs.Prelude.{◌≡◌, ◌/◌, ◌<◌, length};
ghost use Rattle.marking.specs.Below.{every, tab};
ghost use Rattle.marking.specs.Graph.{graph, parent_fits, pair_fits, root_fits, takes as takes_of};
ghost use Rattle.marking.specs.Marks.{mark_answer, end_marks, kept_count};
ghost use Rattle.marking.specs.Inner.Passes.{Pass, WithParents, WithPairs, WithBoth, Along, Up, Settled, ParentsFit};
ghost use Rattle.marking.specs.Inner.Passes.{PairsFit, start_mark, names_first, end_first};

use crate::rules::{along_at, down, up_at};
use crate::spread::spread;
use readers::offsets::NO_PARENT;
use readers::refusal::{Cause, Refusal};
use readers::tables::clear_bytes;

// ---- what is taken

// Whether each parent is below its child.
fn parents_fit(parents: &[u64]) -> bool
    ensures { result ≡ every (length parents.now) (parent_fits parents.now) }
{
    parents
        .iter()
        .enumerate()
        .all(|(i, &p)| p == NO_PARENT || (p as usize) < i)
}

// Whether each pair stays in the tree of n entries. An odd last number is no pair.
fn pairs_fit(pairs: &[u64], n: usize) -> bool
    ensures { result ≡ every (length pairs.now / 2) (pair_fits pairs.now n) }
{
    let (whole, _) = pairs.as_chunks::<2>();
    whole
        .iter()
        .all(|pair| (pair[0] as usize) < n && (pair[1] as usize) < n)
}

// Whether each root is 0 or 1.
fn roots_fit(roots: &[u8]) -> bool
    ensures { result ≡ every (length roots.now) (root_fits roots.now) }
{
    roots.iter().all(|&q| q <= 1)
}

// Whether the graph can be marked with n marks.
fn takes(parents: &[u64], pairs: &[u64], roots: &[u8], n: usize) -> bool
    ensures { result ≡ takes_of (graph parents.now pairs.now roots.now) n }
{
    n == parents.len()
        && roots.len() == parents.len()
        && parents_fit(parents)
        && pairs_fit(pairs, parents.len())
        && roots_fit(roots)
}

// ---- one pass; each answers whether a mark rose

// Along the references, in their order.
fn along(pairs: &[u64], marks: &mut [u8]) -> bool
    requires { PairsFit pairs.now marks.old }
    ensures { Pass (WithPairs pairs.now)
        (Along pairs.now marks.old)
        marks.old marks.new result }
{
    let mut changed = false;
    for j in 0..pairs.len() / 2 {
        if along_at(pairs, marks, j) {
            changed = true;
        }
    }
    changed
}

// From child to parent, the last entry first.
fn up(parents: &[u64], marks: &mut [u8]) -> bool
    requires { ParentsFit parents.now marks.old }
    ensures { Pass (WithParents parents.now)
        (Up parents.now marks.old)
        marks.old marks.new result }
{
    let mut changed = false;
    for i in (0..marks.len()).rev() {
        if up_at(parents, marks, i) {
            changed = true;
        }
    }
    changed
}

// One pass of each kind.
fn round(parents: &[u64], pairs: &[u64], marks: &mut [u8]) -> bool
    requires parents_fit { ParentsFit parents.now marks.old }
    requires pairs_fit { PairsFit pairs.now marks.old }
    ensures { Pass (WithBoth parents.now pairs.now)
        (Settled parents.now pairs.now marks.old)
        marks.old marks.new result }
{
    let a = down(parents, marks);
    let b = along(pairs, marks);
    let c = up(parents, marks);
    a || b || c
}

// ---- start and end

// A root is live, the first entry at least retained.
fn start(roots: &[u8], marks: &mut [u8])
    requires { length marks.old ≡ length roots.now }
    ensures { marks.new ≡ tab (length roots.now) (start_mark roots.now) }
{
    for (i, mark) in marks.iter_mut().enumerate() {
        *mark = match (roots[i], i) {
            (1, _) => 3,
            (_, 0) => 2,
            _ => 1,
        };
    }
}

// Whether a kept entry's reference names the first entry.
fn names_first(pairs: &[u64], marks: &[u8]) -> bool
    requires { PairsFit pairs.now marks.now }
    ensures { result ≡ names_first pairs.now marks.now }
{
    let (whole, _) = pairs.as_chunks::<2>();
    for pair in whole {
        if pair[1] == 0 && marks[pair[0] as usize] >= 2 {
            return true;
        }
    }
    false
}

// The first entry is retained unless a kept one's reference names it.
fn end_first(pairs: &[u64], marks: &mut [u8])
    requires { PairsFit pairs.now marks.old }
    ensures { marks.new ≡ end_first pairs.now marks.old }
{
    if marks.len() > 0 {
        marks[0] = if names_first(pairs, marks) { 3 } else { 2 };
    }
}

// How many marks are retained or live.
fn count_kept(marks: &[u8]) -> usize
    ensures { result ≡ kept_count marks.now }
{
    marks.iter().filter(|m| **m >= 2).count()
}

// `mark` with memory: a work column, best of zeros and with two numbers an entry, changes its time alone, and so does
// where the references of each entry end, best as long as the entries and with a pair for each reference. The rounds
// start from marks that are spread already, and where the pairs stand by holder the first one raises none and is the
// last.
pub(crate) fn mark_with(
    parents: &[u64],
    pairs: &[u64],
    roots: &[u8],
    marks: &mut [u8],
    work: &mut [u32],
    reference_ends: &[u64],
) -> Result<usize, Refusal>
    ensures { let lent = graph parents.now pairs.now roots.now in
        (result ≡ mark_answer lent (length marks.old))
        × (marks.new ≡ end_marks lent (length marks.old)) }
{
    if !takes(parents, pairs, roots, marks.len()) {
        clear_bytes(marks);
        return Err(Refusal(Cause::Graph));
    }
    start(roots, marks);
    spread(parents, pairs, marks, work, reference_ends);
    // No for: the first round that raises no mark is the last.
    while round(parents, pairs, marks) {}
    end_first(pairs, marks);
    Ok(count_kept(marks))
}

// Marks each entry 1 dead, 2 retained, 3 live. Pairs are two numbers each, the entry that holds the reference and the
// one that it names; an odd last number counts for nothing. 16, and zeros, where parents, roots and marks differ in
// length, a parent is not below its child (NO_PARENT is none), a pair leaves the tree or a root is above 1. It needs
// no memory but the marks, and goes by rounds alone: a round looks at each entry twice and at each pair once; the first
// round that raises no mark is the last. A chain of references is followed in one round where its pairs stand in its
// order, one link a round where they stand against it. A mark rises at most twice, so n entries take at most 2n + 1
// rounds. The marks of a unit are made by `mark_with`.
pub fn mark(
    parents: &[u64],
    pairs: &[u64],
    roots: &[u8],
    marks: &mut [u8],
) -> Result<usize, Refusal>
    ensures { let lent = graph parents.now pairs.now roots.now in
        (result ≡ mark_answer lent (length marks.old))
        × (marks.new ≡ end_marks lent (length marks.old)) }
{
    let mut none = [0u32; 0];
    let no_ends = [0u64; 0];
    mark_with(parents, pairs, roots, marks, &mut none, &no_ends)
}
