// What the tests of several calls ask: room for new rows and requests, open requests, lent rows.
ghost use Rattle.std.specs.Prelude.{◌≤◌, ◌<◌};
ghost use Rattle.rows.specs.vocabulary.Sizes.{ROWS, REQUESTS, ITEMS, IsTables};
ghost use Rattle.calls.specs.vocabulary.Performs.{refusal_in, RefusesRows, HasRoom, IsLentWord, TakesLent};
ghost use Rattle.calls.specs.vocabulary.Asks.{TellsOpen, RefusesRequest, SpaceUnless};

use crate::{Refusal, lookups};
use questions::question;
use rows::codes::{A_SUBDIRECTORY, GREATEST_DEPTH, LAST_NEXT};
use rows::layout::{KIND, REQUESTS, ROWS};

// What refuses k new rows of depth d: 15, 16, 18.
// Ruled out: full, with a slot free; a row of depth 13.
pub fn rows_refusal(n: usize, next: u32, d: u32, k: u32) -> Result<(), Refusal>
    requires { (n ≤ ROWS) × (k ≤ 2) }
    ensures lowest { RefusesRows n next d k (refusal_in result) }
    ensures room { HasRoom n next k (refusal_in result) }
{
    if GREATEST_DEPTH < d {
        return Err(Refusal::TooDeep);
    }
    if ROWS < n + k as usize {
        return Err(Refusal::RowsFull);
    }
    if LAST_NEXT - k < next {
        return Err(Refusal::NumbersSpent);
    }
    Ok(())
}

// What refuses a request with so many copies: 16, 17, 18.
// Ruled out: 17 with a slot free; the number of the request is not counted.
pub fn request_refusal(n: usize, m: usize, next: u32, copies: u32) -> Result<(), Refusal>
    requires { (n ≤ ROWS) × (m ≤ REQUESTS) × (copies ≤ ITEMS) }
    ensures lowest { RefusesRequest n m next copies (refusal_in result) }
    ensures room { SpaceUnless (refusal_in result) n m next copies }
{
    if ROWS < n + copies as usize {
        return Err(Refusal::RowsFull);
    }
    if REQUESTS <= m {
        return Err(Refusal::RequestsFull);
    }
    if LAST_NEXT - (copies + 1) < next {
        return Err(Refusal::NumbersSpent);
    }
    Ok(())
}

// Whether the port whose client end is c has an open request.
// Ruled out: yes for a port whose request is closed; the request of another port.
pub fn has_open(t: &[u32], m: usize, c: u32) -> bool
    requires { IsTables t.now × (m ≤ REQUESTS) }
    ensures { TellsOpen t.now m c result }
{
    lookups::open_among(t, m, c).is_some()
}

// Whether the row at a source word is lent; 0 is none.
// Ruled out: yes where there is no row; the answer for the row before.
pub fn lent_word(t: &[u32], w: u32) -> bool
    requires { IsTables t.now × (w ≤ ROWS) }
    ensures { IsLentWord t.now w result }
{
    if w == 0 {
        return false;
    }
    question::lent(t, w as usize - 1)
}

// Whether the row in slot i is a subdirectory and the row at the word via is lent.
// Ruled out: yes for an operation; yes where the caller went through nothing.
pub fn takes_lent(t: &[u32], i: usize, via: u32) -> bool
    requires { IsTables t.now × (i < ROWS) × (via ≤ ROWS) }
    ensures { TakesLent t.now i via result }
{
    if t[KIND + i] != A_SUBDIRECTORY {
        return false;
    }
    lent_word(t, via)
}
