// comesall: what comes tells of each of up to sixteen pairs, by one pass over the rows.
ghost use Rattle.std.specs.Prelude.{◌≤◌, ◌<◌};
ghost use Rattle.rows.specs.vocabulary.Sizes.{ROWS, REQUESTS, IsTables};
ghost use Rattle.questions.specs.vocabulary.Pairs.{PAIRS};
ghost use Rattle.calls.specs.declared.Call.{Call};
ghost use Rattle.calls.specs.vocabulary.Performs.{PerformsApart};
ghost use Rattle.calls.specs.vocabulary.Pairs.{Sixteens, TellsPair, TellsEach, TellsAll};

use crate::{Answer, Sixteen, lookups, numbers};
use questions::pairs;
use questions::pairs::{PAIRS, PairMarks};
use rows::find;
use rows::layout::ROWS;

// what is told of a pair: no, or yes, one more; or nothing, since comes is 7
// Numbers, not an enum: the answer has a column of them with 0 after the last, and definitions and cases give them.
pub const NO: u32 = 1;

pub const YES: u32 = NO + 1;

const NOT_TOLD: u32 = 3;

// What is told of pair k, row e and request q, by the marks of the rows; 0 where there is no pair.
// Ruled out: yes or no for a request that is closed; the mark of the neighbour pair.
fn tell(t: &[u32], n: usize, m: usize, marks: &PairMarks, k: usize, e: u32, q: u32) -> u32
    requires { IsTables t.now × (n ≤ ROWS) × (m ≤ REQUESTS) × (k < PAIRS) }
    ensures { TellsPair t.now n m marks.now k e q result }
{
    if e == 0 {
        return 0;
    }
    let Some(i) = find::row_among(t, n, e) else {
        return NOT_TOLD;
    };
    let Some(_) = lookups::request_among(t, m, q) else {
        return NOT_TOLD;
    };
    let comes = pairs::is_marked(marks, i, k);
    NO + u32::from(comes)
}

// What is told of each pair, in order, by the marks of the rows.
// Ruled out: the last pair is left out; what is told of a pair stands in another's place.
fn tell_each(
    t: &[u32],
    n: usize,
    m: usize,
    marks: &PairMarks,
    es: &[u32; PAIRS],
    qs: &[u32; PAIRS],
) -> [u32; PAIRS]
    requires sizes { IsTables t.now × (n ≤ ROWS) × (m ≤ REQUESTS) }
    requires pairs { Sixteens es.now × Sixteens qs.now }
    ensures told { TellsEach t.now n m marks.now es.now qs.now result }
    ensures long { Sixteens result }
{
    // a for: of array::from_fn a proof would have to follow the calls of a closure
    let mut told = [0u32; PAIRS];
    for k in 0..PAIRS {
        told[k] = tell(t, n, m, marks, k, es[k], qs[k]);
    }
    told
}

// What is told of each pair: rows and requests are counted once, and the rows are gone through once.
fn tell_all(t: &[u32], es: &[u32; PAIRS], qs: &[u32; PAIRS]) -> [u32; PAIRS]
    requires { IsTables t.now × Sixteens es.now × Sixteens qs.now }
    ensures told { TellsAll t.now es.now qs.now result }
    ensures long { Sixteens result }
{
    let n = find::count_rows(t);
    let m = find::count_requests(t);
    let mut marks = [0u16; ROWS + 1];
    pairs::mark_pairs(t, n, qs, &mut marks);
    tell_each(t, n, m, &marks, es, qs)
}

// comesall: never refused.
// Ruled out: 7 for a pair that names no row; a value left out, so that those after it have another's place.
pub fn comes_all(t: &[u32], es: Sixteen, qs: Sixteen) -> Answer
    requires { IsTables t.now }
    ensures { PerformsApart t.now (Call.ComesAll es qs) t.now result }
{
    let rows = numbers::spread(es);
    let requests = numbers::spread(qs);
    let told = tell_all(t, &rows, &requests);
    Answer::ToldAll(numbers::sixteen_from(&told))
}
