// Runs of slots that are marked or not, found in whole words of marks; the words of those that are not moved down.
ghost use Rattle.std.specs.Prelude.{true, false, ◌≡◌, ℕ, ◌+◌, ◌*◌, ◌^◌, ◌≤◌, ◌<◌, length};
ghost use Rattle.rows.specs.vocabulary.Sizes.{ROWS};
ghost use Rattle.changes.specs.vocabulary.Bits.{BITS, WORDS, bit, marks_in, same_as};
ghost use Rattle.changes.specs.vocabulary.Marks.{NoneMarked, EndsAt, EndsOn, lefts};
ghost use Rattle.changes.specs.vocabulary.Marks.{Moved, slid, on_parts};

use crate::bits::{BITS, SlotBits};
use crate::on_each::{OnColumn, on_each};

// ---- runs of marks
// The word of which a bit is set where the slot is marked, or where it is not. A yes or no, not a closure, here and
// below: it turns one word of bits, and definitions have it.
fn word_of(w: u64, marked: bool) -> u64
    ensures within { result < 2 ^ BITS }
    ensures bits { (k : ℕ) → k < BITS → bit result k ≡ same_as marked (bit w k) }
{
    if marked {
        return w;
    }
    !w
}

// The first slot from a word on, of the first count, that is marked or that is not; the count if there is none.
fn next_in_words(marks: &SlotBits, marked: bool, word: usize, count: usize) -> usize
    requires { (word ≤ WORDS) × (count ≤ ROWS) }
    ensures { EndsOn (marks_in marks.now) marked (word * BITS) count result }
{
    for k in word..count.div_ceil(BITS) {
        let w = word_of(marks[k], marked);
        if w != 0 {
            return (k * BITS + w.trailing_zeros() as usize).min(count);
        }
    }
    count
}

// The first slot from one on, of the first count, that is marked or that is not; the count if there is none.
fn next(marks: &SlotBits, marked: bool, from: usize, count: usize) -> usize
    requires { (from ≤ count) × (count ≤ ROWS) }
    ensures { EndsAt (marks_in marks.now) marked from count result }
{
    if from == count {
        return count;
    }
    let rest = word_of(marks[from / BITS], marked) >> (from % BITS);
    if rest != 0 {
        return (from + rest.trailing_zeros() as usize).min(count);
    }
    next_in_words(marks, marked, from / BITS + 1, count)
}

// The first marked slot from one on, of the first count; the count if there is none.
// Ruled out: a marked slot is passed; a slot that is not marked.
pub fn next_marked(marks: &SlotBits, from: usize, count: usize) -> usize
    requires { (from ≤ count) × (count ≤ ROWS) }
    ensures { EndsAt (marks_in marks.now) true from count result }
{
    next(marks, true, from, count)
}

// The first slot from one on that is not marked, of the first count; the count if there is none.
// Ruled out: a slot that is not marked is passed; a marked slot.
pub fn next_left(marks: &SlotBits, from: usize, count: usize) -> usize
    requires { (from ≤ count) × (count ≤ ROWS) }
    ensures { EndsAt (marks_in marks.now) false from count result }
{
    next(marks, false, from, count)
}

// ---- runs of words
// Moves a run of words of a column down.
#[derive(Clone, Copy)]
struct Slide {
    to: usize,
    from: usize,
    len: usize,
}

impl OnColumn for Slide {
    ghost fits = { λ x k. (x.to ≤ x.from) × (x.from + x.len ≤ k) };

    ghost does = { λ x. slid x.to x.from x.len };

    fn on(&self, column: &mut [u32]) {
        column.copy_within(self.from..self.from + self.len, self.to);
    }
}

// Moves down, run by run and in all columns, the words of the slots that are not marked. Nothing is marked before the
// first slot given, and so many of the first count are left. The next run is looked for before the one found, from a up
// to e, moves.
// Ruled out: a word of a marked slot among those that are left; a word that moves into another column.
pub fn move_by_runs(
    part: &mut [u32],
    size: usize,
    columns: usize,
    marks: &SlotBits,
    first: usize,
    kept: usize,
    count: usize,
)
    requires sizes { (length part.old ≡ columns * size) × (first ≤ count) × (count ≤ size) × (count ≤ ROWS) }
    requires clear { NoneMarked (marks_in marks.now) 0 first }
    requires kept { kept ≡ lefts (marks_in marks.now) count }
    ensures { Moved (marks_in marks.now) size columns part.old part.new
        count kept }
{
    let mut j = first;
    let mut a = first;
    let mut e = first;
    // a while: the run found is moved once the next one is, and both go on by runs
    while j < kept {
        let b = next_left(marks, e, count);
        let f = next_marked(marks, b, count);
        let len = e - a;
        let slide = Slide {
            to: j,
            from: a,
            len,
        };
        on_each(part, size, columns, &slide);
        j += len;
        a = b;
        e = f;
    }
}
