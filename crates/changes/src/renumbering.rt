// The sources of the rows that are left, renumbered: they are slots, and a removal moves rows to other slots.
ghost use Rattle.std.specs.Prelude.{◌≡◌, ◌+◌, ◌≤◌, ◌<◌, length, get_or};
ghost use Rattle.rows.specs.vocabulary.Sizes.{ROWS, IsTables};
ghost use Rattle.changes.specs.vocabulary.Bits.{EndsWord, marks_in};
ghost use Rattle.changes.specs.vocabulary.Marks.{NoneMarked, AllMarked, lefts, RanksRun, RanksOn, Ranks};
ghost use Rattle.changes.specs.vocabulary.Marks.{rank_at, Remapped, RenumbersSources};

use crate::bits::{BITS, SlotBits, word_end};
use crate::runs::next_left;
use rows::layout::{DEPTH, ROWS, SOURCE, VIA};

// a word for each slot plus 1, and for 0
const RANKS: usize = ROWS + 1;

// The slots from one up to an end, of which none is marked: each becomes one more than the one before it.
fn ranks_run(to: &mut [u16], from: usize, end: usize, start: usize)
    requires { (from ≤ end) × (end ≤ ROWS) × (start ≤ from + 1) × (end < length to.old) }
    ensures { RanksRun from end start to.old to.new }
{
    for i in from..end {
        to[i + 1] = (start + (i - from)) as u16;
    }
}

// The slots from one up to an end in the same word, each looked at.
fn ranks_each(to: &mut [u16], marks: &SlotBits, from: usize, end: usize, start: usize) -> usize
    requires sizes { (end ≤ ROWS) × (start ≤ from + 1) × (end < length to.old) }
    requires word { EndsWord from end end }
    ensures within { result ≤ end + 1 }
    ensures ranked { RanksOn (marks_in marks.now) from end start to.old
        to.new result }
{
    let w = marks[from / BITS];
    let mut next = start;
    for i in from..end {
        to[i + 1] = next as u16;
        if (w >> (i % BITS)) % 2 == 0 {
            next += 1;
        }
    }
    next
}

// The slots from one up to an end in the same word, of which most often none is marked.
fn ranks_word(to: &mut [u16], marks: &SlotBits, from: usize, end: usize, start: usize) -> usize
    requires sizes { (end ≤ ROWS) × (start ≤ from + 1) × (end < length to.old) }
    requires word { EndsWord from end end }
    ensures within { result ≤ end + 1 }
    ensures ranked { RanksOn (marks_in marks.now) from end start to.old
        to.new result }
{
    if marks[from / BITS] == 0 {
        ranks_run(to, from, end, start);
        return start + (end - from);
    }
    ranks_each(to, marks, from, end, start)
}

// Writes what each slot plus 1 of the first count becomes; 0 stays 0. Nothing is marked before the first slot given.
fn ranks(to: &mut [u16], marks: &SlotBits, first: usize, count: usize)
    requires sizes { (first ≤ count) × (count ≤ ROWS) × (count < length to.old) }
    requires none { get_or to.old 0 0 ≡ 0 }
    requires clear { NoneMarked (marks_in marks.now) 0 first }
    ensures { Ranks (marks_in marks.now) count to.new }
{
    ranks_run(to, 0, first, 1);
    let mut i = first;
    let mut next = first + 1;
    // a while: i goes on by the slots of a word of marks
    while i < count {
        let end = word_end(i, count);
        next = ranks_word(to, marks, i, end, next);
        i = end;
    }
}

// The word of a table of what slots plus 1 become; past the last slot, that of the last one.
fn rank_at(to: &[u16], s: u32) -> u32
    requires { ROWS < length to.now }
    ensures { result ≡ rank_at to.now s }
{
    u32::from(to[(s as usize).min(ROWS)])
}

// Looks the words of a column from one position up to another up in a table.
fn remap(column: &mut [u32], to: &[u16], from: usize, count: usize)
    requires { (from ≤ count) × (count ≤ length column.old) × (ROWS < length to.now) }
    ensures { Remapped to.now from count column.old column.new }
{
    for i in from..count {
        let s = column[i];
        column[i] = rank_at(to, s);
    }
}

// Where a row is left after the first marked run: by a table of what each slot becomes.
fn renumber_by_table(t: &mut [u32], marks: &SlotBits, first: usize, left: usize, count: usize)
    requires sizes { IsTables t.old × (first ≤ left) × (left ≤ count) × (count ≤ ROWS) }
    requires run { NoneMarked (marks_in marks.now) 0 first × AllMarked (marks_in marks.now) first left }
    ensures { RenumbersSources (marks_in marks.now) count t.old t.new }
{
    let mut to = [0u16; RANKS];
    ranks(&mut to, marks, first, count);
    remap(&mut t[SOURCE..VIA], &to, left, count);
    remap(&mut t[VIA..DEPTH], &to, left, count);
}

// Renumbers the sources of the rows that are left, so many of the first count. A source is older than its row, so those
// of the rows before the first mark stay; often no row is left after it. Nothing is marked before the first slot given.
// Ruled out: a row that is left with the slot that its source had before; a change of another column.
pub fn renumber(t: &mut [u32], marks: &SlotBits, first: usize, kept: usize, count: usize)
    requires sizes { IsTables t.old × (first ≤ count) × (count ≤ ROWS) }
    requires clear { NoneMarked (marks_in marks.now) 0 first }
    requires kept { kept ≡ lefts (marks_in marks.now) count }
    ensures { RenumbersSources (marks_in marks.now) count t.old t.new }
{
    if first < kept {
        let left = next_left(marks, first, count);
        renumber_by_table(t, marks, first, left, count);
    }
}
