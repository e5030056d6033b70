// The effect of ask: the items are lent one after the other, then the request is stored.
ghost use Rattle.std.specs.Prelude.{◌≡◌, ◌≤◌, ◌<◌};
ghost use Rattle.rows.specs.vocabulary.Sizes.{ROWS, ITEMS, IsTables};
ghost use Rattle.calls.specs.vocabulary.Asks.{ItemFits, ItemsFit, copies_in, HasSpace, HasPlaces, LoanGrows};
ghost use Rattle.calls.specs.vocabulary.Asks.{LendsEnd, LendsCopy, LendsItem, LendsItems, RequestMade};

use crate::new_rows::append_copy;
use crate::{ItemRow, Loan, NewCopy, NewRequest, lookups};
use changes::change;
use rows::Request;
use rows::codes::THE_SYSTEM;
use rows::layout::ITEMS;

// An end goes to the system, and its number into the list.
fn lend_end(t: &mut [u32], k: Loan, x: ItemRow) -> Loan
    requires { IsTables t.old × (k.count < ITEMS) × (0 < x.word) × (x.word ≤ ROWS) }
    ensures lent { LendsEnd t.old k x t.new result }
    ensures grows { LoanGrows k 0 result }
    ensures long { IsTables t.new }
{
    let i = x.word as usize - 1;
    change::set_place(t, i, THE_SYSTEM);
    let mut items = k.items;
    let last = k.count;
    items[last] = x.item.row;
    Loan {
        rows: k.rows,
        next: k.next,
        items: items,
        count: last + 1,
    }
}

// A copy of the item's row, with the next number, which goes into the list.
fn lend_copy(t: &mut [u32], k: Loan, w: NewRequest, x: ItemRow) -> Loan
    requires { IsTables t.old × HasPlaces k 1 × (w.slot < k.rows) × (0 < x.word) × (x.word ≤ k.rows) }
    ensures lent { LendsCopy t.old k w x t.new result }
    ensures grows { LoanGrows k 1 result }
    ensures long { IsTables t.new }
{
    let via = (w.slot + 1) as u32;
    let copy = NewCopy {
        number: k.next,
        rights: x.item.rights,
        place: THE_SYSTEM,
        source: x.word,
        via: via,
        depth: lookups::depth_over(t, x.word, via),
        request: w.number,
    };
    append_copy(t, k.rows, x.word as usize - 1, copy);
    let mut items = k.items;
    let last = k.count;
    items[last] = k.next;
    Loan {
        rows: k.rows + 1,
        next: k.next + 1,
        items: items,
        count: last + 1,
    }
}

// One item: nothing, an end, or a copy.
fn lend_item(t: &mut [u32], k: Loan, w: NewRequest, x: ItemRow) -> Loan
    requires { IsTables t.old × HasPlaces k x.copies × (w.slot < k.rows) × ItemFits k.rows x }
    ensures lent { LendsItem t.old k w x t.new result }
    ensures grows { LoanGrows k x.copies result }
    ensures long { IsTables t.new }
{
    if x.word == 0 {
        return k;
    }
    if x.copies == 0 {
        return lend_end(t, k, x);
    }
    lend_copy(t, k, w, x)
}

// The items in order.
fn lend_items(t: &mut [u32], k: Loan, w: NewRequest, items: [ItemRow; ITEMS]) -> Loan
    requires { IsTables t.old × HasPlaces k (copies_in items) × (k.count ≡ 0) × (w.slot < k.rows)
        × ItemsFit k.rows items }
    ensures lent { LendsItems t.old k w items t.new result }
    ensures long { IsTables t.new }
{
    let mut lent = k;
    for x in items {
        lent = lend_item(t, lent, w, x);
    }
    lent
}

// The request takes its number, then the copies theirs in order; it is stored with its list.
// Ruled out: copies numbered before the request; an end that stays with the asker.
pub fn add_request(t: &mut [u32], n: usize, m: usize, w: NewRequest, items: [ItemRow; ITEMS])
    requires { IsTables t.old × (w.slot < n) × ItemsFit n items × HasSpace n m w.number (copies_in items) }
    ensures made { RequestMade t.old n m w items t.new }
    ensures long { IsTables t.new }
{
    let none = [0u32; ITEMS];
    let begun = Loan {
        rows: n,
        next: w.number + 1,
        items: none,
        count: 0,
    };
    let lent = lend_items(t, begun, w, items);
    let listed = lent.items;
    let request = Request {
        number: w.number,
        port: w.port,
        asker: w.asker,
        fetched: 0,
        items: listed,
    };
    change::append_request(t, m, request);
    change::set_next(t, lent.next);
}
