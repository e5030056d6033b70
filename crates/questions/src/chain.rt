// The first chain of a row: the rows from a row of the text to it, each the first source of the next.
ghost use Rattle.std.specs.Prelude.{◌≤◌, length};
ghost use Rattle.rows.specs.vocabulary.Sizes.{IsTables};
ghost use Rattle.questions.specs.vocabulary.Questions.{WritesChain};

use crate::question::LAST_WORD;
use rows::layout::{NUMBER, SOURCE};

// Writes the numbers of the first chain of the row at source word s (its slot plus 1, 0 for none), d rows back at most,
// to the front of `chain`, and gives how many they are.
// (rule R15) The source is visited before the row is written, and the depth falls at each call.
// Ruled out: a row before its source; the second source followed; a word written past the row's own.
pub fn first_chain(t: &[u32], s: u32, d: u32, chain: &mut [u32]) -> usize
    requires { IsTables t.now × (d ≤ length chain.old) }
    ensures written { WritesChain t.now s d chain.old chain.new result }
    ensures few { result ≤ d }
{
    if s == 0 {
        return 0;
    }
    if LAST_WORD < s {
        return 0;
    }
    if d == 0 {
        return 0;
    }
    let i = s as usize - 1;
    let n = first_chain(t, t[SOURCE + i], d - 1, chain);
    chain[n] = t[NUMBER + i];
    n + 1
}
