// comes: does a row come from an open request?
ghost use Rattle.rows.specs.vocabulary.Sizes.{IsTables};
ghost use Rattle.calls.specs.declared.Call.{Call};
ghost use Rattle.calls.specs.vocabulary.Performs.{PerformsApart};

use crate::{Answer, Refusal, lookups};
use questions::question;
use rows::find;

// comes: 7 where there is no such row or no such open request.
// Ruled out: no for a row that is made from a lent copy; an answer for a request that is closed.
pub fn comes(t: &[u32], e: u32, q: u32) -> Answer
    requires { IsTables t.now }
    ensures { PerformsApart t.now (Call.Comes e q) t.now result }
{
    let n = find::count_rows(t);
    let Some(i) = find::row_among(t, n, e) else {
        return Refusal::NotHeld.into();
    };
    let m = find::count_requests(t);
    let Some(_) = lookups::request_among(t, m, q) else {
        return Refusal::NotHeld.into();
    };
    let told = question::comes(t, i, q);
    Answer::Told(told)
}
