// Marks of what a closing takes: the rows that come from its seeds, and the requests that close with them.
// Words of rows are read one by one, kinds as numbers: the lent words may hold any.
// That nothing is marked before the first seed is a clause of three functions, no field of a struct: marks are set word
// by word in a local, so the field would be shown at each store, and the three would still name marks and slot.
ghost use Rattle.std.specs.Prelude.{◌≡◌, ◌≤◌, ◌<◌};
ghost use Rattle.rows.specs.Lists.{member};
ghost use Rattle.rows.specs.Layout.{raw_row};
ghost use Rattle.rows.specs.vocabulary.Sizes.{ROWS, REQUESTS, IsTables};
ghost use Rattle.changes.specs.vocabulary.Bits.{EndsWord, marks_in, gones};
ghost use Rattle.changes.specs.vocabulary.Marks.{NoneMarked};
ghost use Rattle.closing.specs.vocabulary.Seeds.{seed_of, closes_of};
ghost use Rattle.closing.specs.vocabulary.Marks.{word_mark, either_mark, MarksSeeds, MarksOn, MarksRows};
ghost use Rattle.closing.specs.vocabulary.Marks.{CountsRemoved, TellsMark, MarksRequests};

use crate::Seed;
use changes::bits;
use changes::bits::{BITS, SlotBits, WORDS, word_end};
use changes::runs::next_marked;
use rows::codes::is_end;
use rows::find;
use rows::layout::{
    KIND, NUMBER, OBJECT, Q_NUMBER, Q_PORT, REQUEST, REQUESTS, ROWS, RequestMarks, SOURCE, VIA,
};

// Whether the row in slot i is a seed.
// Ruled out: an operation row whose manager's number is the port's; a row that bears the number of another request.
fn is_seed(t: &[u32], i: usize, s: Seed) -> bool
    requires { IsTables t.now × (i < ROWS) }
    ensures { result ≡ seed_of s (raw_row t.now i) }
{
    match s {
        Seed::Bearing(q) => t[REQUEST + i] == q,
        Seed::EndsOf(c) => is_end(t[KIND + i]) & (t[OBJECT + i] == c),
        Seed::Only(e) => t[NUMBER + i] == e,
    }
}

// The seeds.
fn mark_seeds(t: &[u32], n: usize, s: Seed) -> SlotBits
    requires { IsTables t.now × (n ≤ ROWS) }
    ensures { MarksSeeds t.now n s (marks_in result) }
{
    let mut marks = [0u64; WORDS];
    for i in 0..n {
        if is_seed(t, i, s) {
            bits::set(&mut marks, i);
        }
    }
    marks
}

// The mark of the row that the word s of a source names. Nothing is marked before the first slot given.
// Ruled out: a row of which the source is slot 0 has none.
fn mark_at(marks: &SlotBits, first: usize, s: u32) -> bool
    requires { NoneMarked (marks_in marks.now) 0 first }
    ensures { s ≤ ROWS → result ≡ word_mark (marks_in marks.now) s }
{
    let at = s as usize;
    if at <= first {
        return false;
    }
    bits::is_set(marks, (at - 1) % ROWS)
}

// Whether one of a row's two sources is marked.
fn derives(marks: &SlotBits, first: usize, s: u32, v: u32) -> bool
    requires { NoneMarked (marks_in marks.now) 0 first }
    ensures { s ≤ ROWS → v ≤ ROWS → result ≡ either_mark (marks_in marks.now) s v }
{
    mark_at(marks, first, s) || mark_at(marks, first, v)
}

// The rows from one up to an end that have a source marked, once all older ones are done. Their marks are in one word,
// which a local holds: a mark is set without reading it again.
fn mark_word(t: &[u32], marks: &mut SlotBits, first: usize, from: usize, end: usize)
    requires sizes { IsTables t.now × (first ≤ from) × (end ≤ ROWS) }
    requires word { EndsWord from end end }
    requires clear { NoneMarked (marks_in marks.old) 0 first }
    ensures clear { NoneMarked (marks_in marks.new) 0 first }
    ensures marks { MarksOn t.now from end (marks_in marks.old)
        (marks_in marks.new) }
{
    let k = from / BITS;
    let mut w = marks[k];
    for i in from..end {
        if derives(marks, first, t[SOURCE + i], t[VIA + i]) {
            w |= 1u64 << (i % BITS);
            marks[k] = w;
        }
    }
}

// The rows that are removed: the seeds and all that comes from them, in one pass from the oldest seed on.
// Ruled out: a copy whose second source alone is removed stays; a row of which nothing is removed goes.
pub fn mark_rows(t: &[u32], n: usize, s: Seed) -> SlotBits
    requires { IsTables t.now × (n ≤ ROWS) }
    ensures { MarksRows t.now n s (marks_in result) }
{
    let mut marks = mark_seeds(t, n, s);
    let first = next_marked(&marks, 0, n);
    let mut i = first;
    // a while: i goes on by a whole word of marks, and begins in the middle of one
    while i < n {
        let end = word_end(i, n);
        mark_word(t, &mut marks, first, i, end);
        i = end;
    }
    marks
}

// How many rows are removed: the rows before less the rows after.
// Ruled out: a row past the rows that there are is counted.
pub fn count_removed(removed: &SlotBits, n: usize) -> usize
    requires { n ≤ ROWS }
    ensures counted { result ≡ gones (marks_in removed.now) n }
    ensures less { CountsRemoved n (marks_in removed.now) result }
{
    bits::count(removed, n)
}

// Whether the number is that of the request that a closing starts from.
fn closes_first(s: Seed, number: u32) -> bool
    ensures { result ≡ member number (closes_of s) }
{
    match s {
        Seed::Bearing(q) => number == q,
        Seed::EndsOf(_) | Seed::Only(_) => false,
    }
}

// Whether the row numbered e is marked; a number that no row has is not.
pub fn is_marked(t: &[u32], n: usize, e: u32, marks: &SlotBits) -> bool
    requires { IsTables t.now × (n ≤ ROWS) }
    ensures { TellsMark t.now n e (marks_in marks.now) result }
{
    let Some(i) = find::row_among(t, n, e) else {
        return false;
    };
    bits::is_set(marks, i)
}

// The requests that close: the one that the closing starts from, and those whose port is removed.
// Ruled out: a request whose port went stays open; one closes because an item of its list is removed.
pub fn mark_requests(t: &[u32], n: usize, m: usize, removed: &SlotBits, s: Seed) -> RequestMarks
    requires { IsTables t.now × (n ≤ ROWS) × (m ≤ REQUESTS) }
    ensures { MarksRequests t.now n m (marks_in removed.now) s result }
{
    let mut closed = [false; REQUESTS];
    for j in 0..m {
        let first = closes_first(s, t[Q_NUMBER + j]);
        let port = is_marked(t, n, t[Q_PORT + j], removed);
        closed[j] = first | port;
    }
    closed
}
