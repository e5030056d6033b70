// Many questions in one pass over the rows: of each row, for each of sixteen pairs, whether it comes from the pair's
// request.
ghost use Rattle.std.specs.Prelude.{◌≡◌, ◌+◌, ◌≤◌, ◌<◌};
ghost use Rattle.rows.specs.vocabulary.Sizes.{ROWS, IsTables};
ghost use Rattle.changes.specs.vocabulary.Bits.{bit};
ghost use Rattle.questions.specs.vocabulary.Pairs.{PAIRS, BitsOfAsking, mark_at, NoneYet, MarksRow, MarksPairs};

use rows::layout::{REQUEST, ROWS, SOURCE, VIA};

// the pairs of one pass
pub const PAIRS: usize = 16;

// The marks of rows by source word, the slot plus 1; at 0, for no row, none. Bit k is the mark of pair k: sixteen at
// once in one word of fixed memory.
pub type PairMarks = [u16; ROWS + 1];

// The pairs that ask of request q, as bits.
// Ruled out: the bit of the neighbour pair; the last pair is left out.
fn asking(requests: &[u32; PAIRS], q: u32) -> u16
    ensures { BitsOfAsking requests.now q result }
{
    let mut bits = 0u16;
    for k in 0..PAIRS {
        bits |= u16::from(requests[k] == q) << k;
    }
    bits
}

// The marks of the row that a source word names.
// Ruled out: those of the row in the next slot.
fn marks_at(marks: &PairMarks, s: u32) -> u16
    ensures { s ≤ ROWS → result ≡ mark_at marks.now s }
{
    marks[(s as usize).min(ROWS)]
}

// The marks of the row in slot i, once those of all older rows are there.
// Ruled out: a row whose second source alone comes from the request is not marked.
fn marks_of(t: &[u32], i: usize, requests: &[u32; PAIRS], marks: &PairMarks) -> u16
    requires { IsTables t.now × (i < ROWS) }
    ensures { MarksRow t.now i requests.now marks.now result }
{
    let sources = marks_at(marks, t[SOURCE + i]) | marks_at(marks, t[VIA + i]);
    let borne = t[REQUEST + i];
    if borne == 0 {
        return sources;
    }
    sources | asking(requests, borne)
}

// The marks of the first n rows, in rising number: each by those of its sources.
// Ruled out: a row before its sources; a mark of a request that a row's copy bears.
pub fn mark_pairs(t: &[u32], n: usize, requests: &[u32; PAIRS], marks: &mut PairMarks)
    requires { IsTables t.now × (n ≤ ROWS) × NoneYet marks.old }
    ensures { MarksPairs t.now n requests.now marks.new }
{
    for i in 0..n {
        marks[i + 1] = marks_of(t, i, requests, marks);
    }
}

// Whether the row in slot i is marked for pair k.
// Ruled out: the mark of the neighbour pair; that of the row in the slot before.
pub fn is_marked(marks: &PairMarks, i: usize, k: usize) -> bool
    requires { (i < ROWS) × (k < PAIRS) }
    ensures { result ≡ bit (mark_at marks.now (i + 1)) k }
{
    (marks[i + 1] >> k) % 2 == 1
}
