// Slots that are left, listed a word of marks at a time, and their words moved down by the list, column by column.
ghost use Rattle.std.specs.Prelude.{◌≡◌, ◌+◌, ◌*◌, ◌≤◌, length};
ghost use Rattle.rows.specs.vocabulary.Sizes.{ROWS};
ghost use Rattle.changes.specs.vocabulary.Bits.{BITS, EndsWord, marks_in};
ghost use Rattle.changes.specs.vocabulary.Marks.{NoneMarked, Lists, Ahead, Moved, MovesOn, lefts};
ghost use Rattle.changes.specs.vocabulary.Marks.{gathered, on_parts};

use crate::bits::{BITS, SlotBits, word_end};
use crate::on_each::{OnColumn, on_each};

// Lists the slots from one up to an end in the same word that are not marked, and says how many they are.
// Ruled out: a marked slot in the list; one that is not marked left out.
fn list_left(slots: &mut [u16], marks: &SlotBits, from: usize, end: usize) -> usize
    requires { (BITS ≤ length slots.old) × (end ≤ ROWS) × EndsWord from end end }
    ensures { Lists (marks_in marks.now) from end slots.new result }
{
    // not one loop with ranks_each of renumbering: that has a word for each slot, and counts from elsewhere
    let w = marks[from / BITS];
    let mut n = 0;
    for i in from..end {
        // as, here and for ranks: a slot fits 16 bits, and try_from would have a branch that nothing takes
        slots[n] = i as u16;
        if (w >> (i % BITS)) % 2 == 0 {
            n += 1;
        }
    }
    n
}

// Moves down, to one position and on, the words of the slots of a list.
#[derive(Clone, Copy)]
struct Gather<'a> {
    to: usize,
    slots: &'a [u16],
}

impl OnColumn for Gather<'_> {
    ghost fits = { λ x k. (x.to + length x.slots.now ≤ k) × Ahead x.to k x.slots.now (length x.slots.now) };

    ghost does = { λ x. gathered x.to x.slots.now (length x.slots.now) };

    fn on(&self, column: &mut [u32]) {
        for (k, &slot) in self.slots.iter().enumerate() {
            column[self.to + k] = column[usize::from(slot)];
        }
    }
}

// Moves down the words of the slots from one up to an end in the same word that are not marked, and says how many they
// are.
fn gather_word(
    part: &mut [u32],
    size: usize,
    columns: usize,
    marks: &SlotBits,
    from: usize,
    end: usize,
    to: usize,
) -> usize
    requires sizes { (length part.old ≡ columns * size) × (to ≤ from) × (end ≤ size) × (end ≤ ROWS) }
    requires word { EndsWord from end end }
    ensures number { lefts (marks_in marks.now) end ≡ lefts (marks_in marks.now) from + result }
    ensures moved { MovesOn (marks_in marks.now) size columns from to end (to + result)
        part.old part.new }
{
    let mut room = [0u16; BITS];
    let n = list_left(&mut room, marks, from, end);
    let slots = &room[..n];
    on_each(part, size, columns, &Gather { to, slots });
    n
}

// Moves down, a word of marks at a time and in all columns, the words of the slots that are not marked. Nothing is
// marked before the first slot given, and so many of the first count are left.
// Ruled out: a word of a marked slot among those that are left; a word that moves into another column.
pub fn move_by_words(
    part: &mut [u32],
    size: usize,
    columns: usize,
    marks: &SlotBits,
    first: usize,
    kept: usize,
    count: usize,
)
    requires sizes { (length part.old ≡ columns * size) × (first ≤ count) × (count ≤ size) × (count ≤ ROWS) }
    requires clear { NoneMarked (marks_in marks.now) 0 first }
    requires kept { kept ≡ lefts (marks_in marks.now) count }
    ensures { Moved (marks_in marks.now) size columns part.old part.new
        count kept }
{
    let mut j = first;
    let mut i = first;
    // a while: i goes on by the slots of a word of marks
    while j < kept {
        let end = word_end(i, count);
        j += gather_word(part, size, columns, marks, i, end, j);
        i = end;
    }
}
