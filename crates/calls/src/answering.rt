// answer: the server ends a request; one that it served only if that was fetched and every lent end is back.
ghost use Rattle.std.specs.Prelude.{◌≡◌, ◌≤◌, ◌<◌};
ghost use Rattle.rows.specs.Layout.{request_at};
ghost use Rattle.rows.specs.vocabulary.Slots.{Within};
ghost use Rattle.rows.specs.vocabulary.Sizes.{ROWS, REQUESTS, IsTables, IsRecords};
ghost use Rattle.calls.specs.declared.Call.{Call};
ghost use Rattle.calls.specs.vocabulary.Performs.{Performs, refusal_in, answer_in};
ghost use Rattle.calls.specs.vocabulary.Effects.{IsProcess};
ghost use Rattle.calls.specs.vocabulary.Answering.{EndBusy, ListedNewer, EndAway, AnyBusy, AnyAway, RefusesAnswer};
ghost use Rattle.calls.specs.vocabulary.Answering.{FindsEnd, AnswersEnd, newer_listing};

use crate::{Answer, Refusal, lookups};
use closing::close::close_request;
use rows::codes::{A_SERVER_END, is_end};
use rows::layout::{KIND, Q_NUMBER};
use rows::{Request, find, read};

// The slot of the row e, where it is an end: as lookups::row_in, but another word of the row is asked.
fn end_at(t: &[u32], n: usize, e: u32) -> Option<usize>
    requires { IsTables t.now × (n ≤ ROWS) }
    ensures within { Within n result }
    ensures found { FindsEnd t.now n e result }
{
    let Some(i) = find::row_among(t, n, e) else {
        return None;
    };
    if is_end(t[KIND + i]) {
        return Some(i);
    }
    None
}

// Whether the item e is an end whose port has an open request.
fn end_busy(t: &[u32], n: usize, m: usize, e: u32) -> bool
    requires { IsTables t.now × (n ≤ ROWS) × (m ≤ REQUESTS) }
    ensures { EndBusy t.now n m e result }
{
    let Some(i) = end_at(t, n, e) else {
        return false;
    };
    lookups::asked_at(t, m, i).is_some()
}

// One of the ends that v lists has a busy port.
fn any_busy(t: &[u32], n: usize, m: usize, v: Request) -> bool
    requires { IsTables t.now × (n ≤ ROWS) × (m ≤ REQUESTS) }
    ensures { AnyBusy t.now n m v result }
{
    v.items.iter().any(|&e| end_busy(t, n, m, e))
}

// Whether the request in slot k is newer than q and lists e.
fn newer_lists(t: &[u32], k: usize, q: u32, e: u32) -> bool
    requires { IsTables t.now × (k < REQUESTS) }
    ensures { result ≡ newer_listing q e (request_at t.now k) }
{
    let w = read::request_at(t, k);
    (q < w.number) & w.items.contains(&e)
}

// Whether a request newer than q lists e.
// Every request is looked at, with no way out early, so that the loop has no branch.
fn listed_newer(t: &[u32], m: usize, q: u32, e: u32) -> bool
    requires { IsTables t.now × (m ≤ REQUESTS) }
    ensures { ListedNewer t.now m q e result }
{
    let mut found = false;
    for k in 0..m {
        found = newer_lists(t, k, q, e) | found;
    }
    found
}

// Whether the item e is an end that is not with p, or is listed in a request newer than q.
fn end_away(t: &[u32], n: usize, m: usize, q: u32, p: u32, e: u32) -> bool
    requires { IsTables t.now × (n ≤ ROWS) × (m ≤ REQUESTS) }
    ensures { EndAway t.now n m q p e result }
{
    let Some(_) = end_at(t, n, e) else {
        return false;
    };
    let Some(_) = lookups::held_by(t, n, p, e) else {
        return true;
    };
    listed_newer(t, m, q, e)
}

// One of the ends that v lists is not with p, or is listed in a newer request.
fn any_away(t: &[u32], n: usize, m: usize, v: Request, p: u32) -> bool
    requires { IsTables t.now × (n ≤ ROWS) × (m ≤ REQUESTS) }
    ensures { AnyAway t.now n m v p result }
{
    let q = v.number;
    v.items.iter().any(|&e| end_away(t, n, m, q, p, e))
}

// What refuses the answer of p to the request in slot j, where it was served (the call's own word): 10, 11, 14.
fn answer_refusal(
    t: &[u32],
    n: usize,
    m: usize,
    j: usize,
    p: u32,
    served: bool,
) -> Result<(), Refusal>
    requires { IsTables t.now × (n ≤ ROWS) × (m ≤ REQUESTS) × (j < REQUESTS) }
    ensures { RefusesAnswer t.now n m j p served (refusal_in result) }
{
    if !served {
        return Ok(());
    }
    let v = read::request_at(t, j);
    if any_busy(t, n, m, v) {
        return Err(Refusal::Busy);
    }
    // 1 and 0, as the words have it
    if v.fetched != 1 {
        return Err(Refusal::NoRequest);
    }
    if any_away(t, n, m, v, p) {
        return Err(Refusal::Away);
    }
    Ok(())
}

// answer at the end in slot i, which p holds: 8 for one that is no server end, 11 with no request;
// then the request's refusals.
fn answer_end(
    t: &mut [u32],
    n: usize,
    ps: &mut [u32],
    i: usize,
    p: u32,
    served: bool,
) -> Result<Answer, Refusal>
    requires { IsTables t.old × IsRecords ps.old × (n ≤ ROWS) × (i < ROWS) }
    ensures performs { AnswersEnd t.old n ps.old i p served t.new
        ps.new (answer_in result) }
    ensures long { IsTables t.new × IsRecords ps.new }
{
    if t[KIND + i] != A_SERVER_END {
        return Err(Refusal::WrongKind);
    }
    let m = find::count_requests(t);
    let Some(j) = lookups::asked_at(t, m, i) else {
        return Err(Refusal::NoRequest);
    };
    answer_refusal(t, n, m, j, p, served)?;
    let q = t[Q_NUMBER + j];
    close_request(t, ps, q);
    Ok(Answer::Done)
}

// answer: 7 for a row that the caller does not hold; then the refusals at the end.
// Ruled out, where it was served: a lent end that another process has goes back; a request that is not fetched closes.
// Ruled out, where it was not: a request that is not fetched stays open; the port is closed with it.
pub fn answer(t: &mut [u32], ps: &mut [u32], p: u32, e: u32, served: bool) -> Answer
    requires { IsTables t.old × IsRecords ps.old × IsProcess p }
    ensures performs { Performs t.old ps.old (Call.Answer p e served) t.new
        ps.new result }
    ensures long { IsTables t.new × IsRecords ps.new }
{
    let n = find::count_rows(t);
    let Some(i) = lookups::held_by(t, n, p, e) else {
        return Refusal::NotHeld.into();
    };
    answer_end(t, n, ps, i, p, served).unwrap_or_else(Answer::from)
}
