// What a closing does to lists and places: ends go back, and leave lists. What is marked is removed after it.
// No item is 0, no Option: items are lent words. Of a closed request items go back, of an open one they leave: two
// functions with other contracts.
ghost use Rattle.std.specs.Prelude.{[], ◌∷◌, ◌≤◌, ◌<◌};
ghost use Rattle.rows.specs.vocabulary.Sizes.{ROWS, REQUESTS, ITEMS, IsTables};
ghost use Rattle.changes.specs.vocabulary.Bits.{marks_in};
ghost use Rattle.closing.specs.vocabulary.Lists.{SendsBack, ItemLeaves, ItemsLeave, SettlesNext, SettlesLists};

use changes::bits::SlotBits;
use changes::{bits, change};
use rows::codes::clist;
use rows::layout::RequestMarks;
use rows::{Request, find, read};

// One item of a closed request: its row goes to a c-list, unless it is out: removed, or sent back by an older closed
// request.
fn item_back(t: &mut [u32], n: usize, e: u32, asker: u32, out: &mut SlotBits)
    requires { IsTables t.old × (n ≤ ROWS) }
    ensures back { SendsBack n asker (e ∷ []) t.old (marks_in out.old)
        t.new (marks_in out.new) }
    ensures long { IsTables t.new }
{
    if e == 0 {
        return;
    }
    let Some(i) = find::row_among(t, n, e) else {
        return;
    };
    if bits::is_set(out, i) {
        return;
    }
    bits::set(out, i);
    let place = clist(asker);
    change::set_place(t, i, place);
}

// All items of a closed request.
fn items_back(t: &mut [u32], n: usize, v: Request, out: &mut SlotBits)
    requires { IsTables t.old × (n ≤ ROWS) }
    ensures back { SendsBack n v.asker v.items t.old (marks_in out.old)
        t.new (marks_in out.new) }
    ensures long { IsTables t.new }
{
    for e in v.items {
        item_back(t, n, e, v.asker, out);
    }
}

// The item e, at position k of the open request in slot j, leaves the list if its row is out.
fn item_out(t: &mut [u32], n: usize, j: usize, k: usize, e: u32, out: &SlotBits)
    requires { IsTables t.old × (n ≤ ROWS) × (j < REQUESTS) × (k < ITEMS) }
    ensures out { ItemLeaves n j k e (marks_in out.now) t.old
        t.new }
    ensures long { IsTables t.new }
{
    if e == 0 {
        return;
    }
    let Some(i) = find::row_among(t, n, e) else {
        return;
    };
    if bits::is_set(out, i) {
        change::clear_item(t, j, k);
    }
}

// All items of an open request, which is v.
fn items_out(t: &mut [u32], n: usize, j: usize, v: Request, out: &SlotBits)
    requires { IsTables t.old × (n ≤ ROWS) × (j < REQUESTS) }
    ensures out { ItemsLeave n j v (marks_in out.now) t.old
        t.new }
    ensures long { IsTables t.new }
{
    for (k, e) in v.items.iter().enumerate() {
        item_out(t, n, j, k, *e, out);
    }
}

// The request in slot j, once all older ones are done.
fn settle_request(t: &mut [u32], n: usize, j: usize, closes: bool, out: &mut SlotBits)
    requires { IsTables t.old × (n ≤ ROWS) × (j < REQUESTS) }
    ensures settled { SettlesNext n j closes t.old (marks_in out.old)
        t.new (marks_in out.new) }
    ensures long { IsTables t.new }
{
    let v = read::request_at(t, j);
    if closes {
        items_back(t, n, v, out);
    } else {
        items_out(t, n, j, v, out);
    }
}

// Ends that closed requests list go back, and rows that are removed or go back leave the lists of open requests.
// Ruled out: an end goes to the asker of a newer closed request, or stays in a newer open request's list.
pub fn settle_lists(t: &mut [u32], n: usize, m: usize, removed: &SlotBits, closed: &RequestMarks)
    requires { IsTables t.old × (n ≤ ROWS) × (m ≤ REQUESTS) }
    ensures settled { SettlesLists n m (marks_in removed.now) closed.now t.old
        t.new }
    ensures long { IsTables t.new }
{
    let mut out = *removed;
    for j in 0..m {
        let closes = closed[j];
        settle_request(t, n, j, closes, &mut out);
    }
}
