// The rules of marking, one mark at a time, and the pass from parent to child: what the rounds of `mark` and the work
// list have in common. Each answers whether a mark rose.
ghost use Rattle.std.specs.Prelude.{◌/◌, ◌<◌, length};
ghost use Rattle.marking.specs.Inner.Passes.{Pass, WithParents, WithPairs, DownAt, AlongAt, UpAt, Down, ParentsFit};
ghost use Rattle.marking.specs.Inner.Passes.{PairsFit, Raised};

use readers::offsets::NO_PARENT;

// Entry t gets a mark where entry s has one of so much at least, and its own is lower.
fn raise(marks: &mut [u8], s: usize, least: u8, t: usize, mark: u8) -> bool
    requires s_in_bounds { s < length marks.old }
    requires t_in_bounds { t < length marks.old }
    ensures { Raised marks.old marks.new s least t mark result }
{
    if marks[s] < least || marks[t] >= mark {
        return false;
    }
    marks[t] = mark;
    true
}

// Entry i becomes live where its parent is.
pub(crate) fn down_at(parents: &[u64], marks: &mut [u8], i: usize) -> bool
    requires parents_fit { ParentsFit parents.now marks.old }
    requires i_in_bounds { i < length marks.old }
    ensures { Pass (WithParents parents.now)
        (DownAt parents.now marks.old i)
        marks.old marks.new result }
{
    let p = parents[i];
    p != NO_PARENT && raise(marks, p as usize, 3, i, 3)
}

// What reference j names becomes live where its holder is kept, retained or live.
pub(crate) fn along_at(pairs: &[u64], marks: &mut [u8], j: usize) -> bool
    requires pairs_fit { PairsFit pairs.now marks.old }
    requires j_in_bounds { j < length pairs.now / 2 }
    ensures { Pass (WithPairs pairs.now)
        (AlongAt pairs.now marks.old j)
        marks.old marks.new result }
{
    let s = pairs[2 * j] as usize;
    let t = pairs[2 * j + 1] as usize;
    raise(marks, s, 2, t, 3)
}

// The parent of entry i is retained where i is kept.
pub(crate) fn up_at(parents: &[u64], marks: &mut [u8], i: usize) -> bool
    requires parents_fit { ParentsFit parents.now marks.old }
    requires i_in_bounds { i < length marks.old }
    ensures { Pass (WithParents parents.now)
        (UpAt parents.now marks.old i)
        marks.old marks.new result }
{
    if marks[i] < 2 {
        return false;
    }
    let p = parents[i];
    p != NO_PARENT && raise(marks, i, 2, p as usize, 2)
}

// From parent to child, the first entry first, so that one pass reaches every depth.
pub(crate) fn down(parents: &[u64], marks: &mut [u8]) -> bool
    requires { ParentsFit parents.now marks.old }
    ensures { Pass (WithParents parents.now)
        (Down parents.now marks.old)
        marks.old marks.new result }
{
    let mut changed = false;
    for i in 0..marks.len() {
        if down_at(parents, marks, i) {
            changed = true;
        }
    }
    changed
}
