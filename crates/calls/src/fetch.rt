// fetch: what a request still lists goes to the caller.
ghost use Rattle.std.specs.Prelude.{[], ◌∷◌, ◌≤◌, ◌<◌};
ghost use Rattle.rows.specs.vocabulary.Sizes.{ROWS, REQUESTS, IsTables};
ghost use Rattle.calls.specs.declared.Call.{Call};
ghost use Rattle.calls.specs.vocabulary.Effects.{IsProcess};
ghost use Rattle.calls.specs.vocabulary.Performs.{PerformsApart, FetchesRequest, FetchesEnd, answer_in};
ghost use Rattle.calls.specs.vocabulary.Loans.{ItemsPlaced, HandedOver};

use crate::{Answer, Refusal, lookups};
use changes::change;
use rows::codes::{A_SERVER_END, clist};
use rows::layout::{ITEMS, KIND};
use rows::{Request, find, read};

// The row of one item goes to the place; item 0 is none.
fn place_item(t: &mut [u32], n: usize, e: u32, place: u32)
    requires { IsTables t.old × (n ≤ ROWS) }
    ensures placed { ItemsPlaced t.old n (e ∷ []) place t.new }
    ensures long { IsTables t.new }
{
    if e == 0 {
        return;
    }
    let Some(i) = find::row_among(t, n, e) else {
        return;
    };
    change::set_place(t, i, place);
}

// The rows of all items, from the last item to the first.
fn place_items(t: &mut [u32], n: usize, v: Request, place: u32)
    requires { IsTables t.old × (n ≤ ROWS) }
    ensures placed { ItemsPlaced t.old n v.items place t.new }
    ensures long { IsTables t.new }
{
    for k in (0..ITEMS).rev() {
        place_item(t, n, v.items[k], place);
    }
}

// The request in slot j is fetched by p.
// Ruled out: its items stay with the system; it can be fetched again.
pub fn hand_over(t: &mut [u32], n: usize, j: usize, p: u32)
    requires { IsTables t.old × (n ≤ ROWS) × (j < REQUESTS) }
    ensures handed { HandedOver t.old n j p t.new }
    ensures long { IsTables t.new }
{
    let v = read::request_at(t, j);
    let place = clist(p);
    place_items(t, n, v, place);
    change::set_fetched(t, j);
}

// fetch of the request in slot j, which is open on the port of a server end of p: 11 where it is fetched.
fn fetch_request(t: &mut [u32], n: usize, j: usize, p: u32) -> Result<Answer, Refusal>
    requires { IsTables t.old × (n ≤ ROWS) × (j < REQUESTS) }
    ensures answers { FetchesRequest t.old n j p t.new (answer_in result) }
    ensures long { IsTables t.new }
{
    let v = read::request_at(t, j);
    if v.fetched == 1 {
        return Err(Refusal::NoRequest);
    }
    hand_over(t, n, j, p);
    Ok(Answer::Fetched(v.number, v.items))
}

// fetch at the end in slot i, which p holds: 8 for one that is no server end, 11 with no request.
fn fetch_end(t: &mut [u32], n: usize, i: usize, p: u32) -> Result<Answer, Refusal>
    requires { IsTables t.old × (n ≤ ROWS) × (i < n) }
    ensures answers { FetchesEnd t.old n i p t.new (answer_in result) }
    ensures long { IsTables t.new }
{
    if t[KIND + i] != A_SERVER_END {
        return Err(Refusal::WrongKind);
    }
    let m = find::count_requests(t);
    let Some(j) = lookups::asked_at(t, m, i) else {
        return Err(Refusal::NoRequest);
    };
    fetch_request(t, n, j, p)
}

// fetch: 7 for a row that the caller does not hold; then the refusals at the end.
// Ruled out: the request of another port; the items in another order.
pub fn fetch(t: &mut [u32], p: u32, e: u32) -> Answer
    requires { IsTables t.old × IsProcess p }
    ensures performs { PerformsApart t.old (Call.Fetch p e) t.new result }
    ensures long { IsTables t.new }
{
    let n = find::count_rows(t);
    let Some(i) = lookups::held_by(t, n, p, e) else {
        return Refusal::NotHeld.into();
    };
    fetch_end(t, n, i, p).unwrap_or_else(Answer::from)
}
