// Marked slots taken out of columns: the words of those that are left move down, in all columns; 0 comes after.
ghost use Rattle.std.specs.Prelude.{◌≡◌, ◌*◌, ◌≤◌, length};
ghost use Rattle.rows.specs.vocabulary.Sizes.{ROWS};
ghost use Rattle.changes.specs.vocabulary.Bits.{marks_in};
ghost use Rattle.changes.specs.vocabulary.Marks.{NoneMarked, lefts, compacted, on_parts};

use crate::bits::{BITS, SlotBits, count_bits};
use crate::clear::clear_columns;
use crate::gather::move_by_words;
use crate::runs::move_by_runs;

// a run of so many words moves faster by itself than word by word
const RUN: usize = 8;

// How many runs of marks start in the words of the slots from one up to an end.
fn count_runs(marks: &SlotBits, from: usize, end: usize) -> usize
    requires { (from ≤ end) × (end ≤ ROWS) }
    ensures { result ≤ ROWS }
{
    let mut total = 0;
    for k in from / BITS..end.div_ceil(BITS) {
        let w = marks[k];
        total += count_bits(w & !(w << 1));
    }
    total
}

// Whether the slots that are left stand in short runs. Either answer is right: it tells which way is the faster one.
fn scattered(marks: &SlotBits, first: usize, kept: usize, count: usize) -> bool
    requires { (first ≤ count) × (kept ≤ count) × (count ≤ ROWS) }
{
    let slots = count - first;
    if kept <= first {
        return false;
    }
    if (count - kept) * RUN < slots {
        return false;
    }
    slots <= count_runs(marks, first, count) * RUN
}

// part, size and columns stay three parameters, here and below: a struct of them would be lent anew, field by field, in
// each call, and its clauses would name the same three.

// Compacts columns of one size that stand one after the other. Nothing is marked before the first slot given, and so
// many of the first count are kept.
// Ruled out: a word of a marked slot stays; a word moves into another column.
pub fn compact_columns(
    part: &mut [u32],
    size: usize,
    columns: usize,
    marks: &SlotBits,
    first: usize,
    kept: usize,
    count: usize,
)
    requires sizes { (length part.old ≡ columns * size) × (first ≤ count) × (count ≤ size) × (count ≤ ROWS) }
    requires clear { NoneMarked (marks_in marks.now) 0 first }
    requires kept { kept ≡ lefts (marks_in marks.now) count }
    ensures { part.new ≡ on_parts (compacted (marks_in marks.now) count) size columns
        part.old }
{
    if scattered(marks, first, kept, count) {
        move_by_words(part, size, columns, marks, first, kept, count);
    } else {
        move_by_runs(part, size, columns, marks, first, kept, count);
    }
    clear_columns(part, size, columns, kept, count);
}
