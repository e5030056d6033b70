// chain: the rows from a row of the text to a row, each the first source of the next.
ghost use Rattle.std.specs.Prelude.{◌<◌};
ghost use Rattle.rows.specs.vocabulary.Sizes.{ROWS, IsTables};
ghost use Rattle.calls.specs.declared.Call.{Call};
ghost use Rattle.calls.specs.vocabulary.Performs.{PerformsApart, ChainedAt};

use crate::numbers::four_from;
use crate::{Answer, Refusal};
use questions::chain;
use rows::codes::GREATEST_DEPTH;
use rows::find;

// the rows of a chain at most: one of each depth
const LONGEST_CHAIN: usize = 12;

// The answer for the row in slot i.
fn chain_at(t: &[u32], i: usize) -> Answer
    requires { IsTables t.now × (i < ROWS) }
    ensures { ChainedAt t.now i result }
{
    let mut rows = [0u32; LONGEST_CHAIN];
    chain::first_chain(t, (i + 1) as u32, GREATEST_DEPTH, &mut rows);
    Answer::Chained(
        four_from(&rows, 0),
        four_from(&rows, 4),
        four_from(&rows, 8),
    )
}

// chain: 7 where there is no such row.
// Ruled out: a chain that lacks the row itself, or the row of the text; the newest row first.
pub fn chain(t: &[u32], e: u32) -> Answer
    requires { IsTables t.now }
    ensures { PerformsApart t.now (Call.Chain e) t.now result }
{
    let n = find::count_rows(t);
    let Some(i) = find::row_among(t, n, e) else {
        return Refusal::NotHeld.into();
    };
    chain_at(t, i)
}
