// Questions about the tables. Where the words have another length or the slot is none, the answer is no, or 0 numbers:
// C has no Result, and its words come with a length that each function must test (here and in the files beside).
ghost use Rattle.std.specs.Prelude.{◌≡◌, false, ◌<◌};
ghost use Rattle.rows.specs.Layout.{sound_words, rows_in};
ghost use Rattle.rows.specs.vocabulary.Sizes.{ROWS, IsTables};
ghost use Rattle.test_exports.specs.vocabulary.Exports.{Unless, TellsOnLoan, TellsComesFrom, TellsLent};
ghost use Rattle.questions.specs.vocabulary.Pairs.{MarksPairs};
ghost use Rattle.test_exports.specs.vocabulary.Exports.{ChainWritten, NoChain};

use questions::pairs::{PAIRS, PairMarks};
use questions::{chain, pairs, question};
use rows::codes::GREATEST_DEPTH;
use rows::find;
use rows::layout::{ROWS, TABLES};
use soundness::sound;

// the rows of a chain at most: one of each depth
const LONGEST_CHAIN: usize = 12;

#[unsafe(no_mangle)]
pub extern "C" fn kernel_sound(t: &[u32], p: &[u32]) -> bool
    ensures { result ≡ sound_words t.now p.now }
{
    sound::sound(t, p)
}

#[unsafe(no_mangle)]
pub extern "C" fn kernel_on_loan(t: &[u32], e: u32) -> bool
    ensures listed { TellsOnLoan t.now e result }
    ensures other { Unless (IsTables t.now) (result ≡ false) }
{
    if t.len() != TABLES {
        return false;
    }
    question::on_loan(t, e)
}

#[unsafe(no_mangle)]
pub extern "C" fn kernel_comes(t: &[u32], e: usize, q: u32) -> bool
    ensures comes { TellsComesFrom t.now e q result }
    ensures other { Unless (IsTables t.now × (e < ROWS)) (result ≡ false) }
{
    if t.len() != TABLES {
        return false;
    }
    if ROWS <= e {
        return false;
    }
    question::comes(t, e, q)
}

#[unsafe(no_mangle)]
pub extern "C" fn kernel_lent(t: &[u32], e: usize) -> bool
    ensures lent { TellsLent t.now e result }
    ensures other { Unless (IsTables t.now × (e < ROWS)) (result ≡ false) }
{
    if t.len() != TABLES {
        return false;
    }
    if ROWS <= e {
        return false;
    }
    question::lent(t, e)
}

// The first chain of the row in slot e, written to the front of `chain`, which has twelve words at least.
#[unsafe(no_mangle)]
pub extern "C" fn kernel_first_chain(t: &[u32], e: usize, chain: &mut [u32]) -> usize
    ensures written { ChainWritten t.now e chain.old chain.new result }
    ensures other { NoChain t.now e chain.old chain.new result }
{
    if t.len() != TABLES {
        return 0;
    }
    if ROWS <= e {
        return 0;
    }
    if chain.len() < LONGEST_CHAIN {
        return 0;
    }
    chain::first_chain(t, (e + 1) as u32, GREATEST_DEPTH, chain)
}

// The marks of every row for the requests of sixteen pairs, by one pass over the rows.
#[unsafe(no_mangle)]
pub extern "C" fn kernel_mark_pairs(t: &[u32], requests: &[u32; PAIRS], marks: &mut PairMarks)
    ensures marked { IsTables t.now → MarksPairs t.now (rows_in t.now)
        requests.now marks.new }
    ensures other { Unless (IsTables t.now) (marks.new ≡ marks.old) }
{
    if t.len() != TABLES {
        return;
    }
    let n = find::rows_in(t);
    *marks = [0u16; ROWS + 1];
    pairs::mark_pairs(t, n, requests, marks);
}
