// Removal of marked rows and of marked requests, in place: what is left moves to the front, 0 comes after it.
ghost use Rattle.std.specs.Prelude.{◌≡◌, ◌≤◌};
ghost use Rattle.rows.specs.vocabulary.Sizes.{ROWS, REQUESTS, IsTables};
ghost use Rattle.changes.specs.vocabulary.Bits.{marks_in, gones, SameMarks};
ghost use Rattle.changes.specs.vocabulary.Changes.{RemovesRows, RemovesRequests};

use crate::bits;
use crate::bits::{SlotBits, WORDS};
use crate::compact::compact_columns;
use crate::renumbering::renumber;
use crate::runs::next_marked;
use rows::find::count_requests;
use rows::layout::{
    NEXT, NUMBER, Q_NUMBER, REQUEST_COLUMNS, REQUESTS, ROW_COLUMNS, ROWS, RequestMarks,
};

// Removes the marked rows, so many of the first count; the marks are closed, and the sources of the rows that are left
// are renumbered.
// Ruled out: a row that is left with the slot that its source had before;
// a column of which one word stays where a row went.
pub fn remove_rows(t: &mut [u32], count: usize, gone: usize, marks: &SlotBits)
    requires sizes { IsTables t.old × (count ≤ ROWS) }
    requires gone { gone ≡ gones (marks_in marks.now) count }
    ensures { RemovesRows t.old t.new count (marks_in marks.now) }
{
    let kept = count - gone;
    let first = next_marked(marks, 0, count);
    renumber(t, marks, first, kept, count);
    compact_columns(
        &mut t[NUMBER..Q_NUMBER],
        ROWS,
        ROW_COLUMNS,
        marks,
        first,
        kept,
        count,
    );
}

// The marks of the first requests in bits.
fn request_bits(marks: &RequestMarks, count: usize) -> SlotBits
    requires { count ≤ REQUESTS }
    ensures { SameMarks marks.now (marks_in result) count }
{
    let mut packed = [0u64; WORDS];
    for j in 0..count {
        if marks[j] {
            bits::set(&mut packed, j);
        }
    }
    packed
}

// Removes the marked requests.
// Ruled out: a request that is left with another's port; a change of a row's word.
pub fn remove_requests(t: &mut [u32], marks: &RequestMarks)
    requires { IsTables t.old }
    ensures { RemovesRequests t.old t.new marks.now }
{
    let m = count_requests(t);
    let packed = request_bits(marks, m);
    let kept = m - bits::count(&packed, m);
    let first = next_marked(&packed, 0, m);
    compact_columns(
        &mut t[Q_NUMBER..NEXT],
        REQUESTS,
        REQUEST_COLUMNS,
        &packed,
        first,
        kept,
        m,
    );
}
