// ask: the items' rows are looked up, the tests in order, then the effect (lend.rt).
ghost use Rattle.std.specs.Prelude.{◌≡◌, ◌≤◌, ◌<◌};
ghost use Rattle.rows.specs.vocabulary.Sizes.{ROWS, REQUESTS, ITEMS, IsTables};
ghost use Rattle.calls.specs.declared.Call.{Call};
ghost use Rattle.calls.specs.vocabulary.Performs.{PerformsApart, refusal_in, answer_in};
ghost use Rattle.calls.specs.vocabulary.Effects.{IsProcess};
ghost use Rattle.calls.specs.vocabulary.Asks.{LookedFits, LooksUp, ItemFits, ItemsFit, LacksRight, AnyLacks};
ghost use Rattle.calls.specs.vocabulary.Asks.{ItemBusy, AnyItemBusy, CopyDeep, AnyDeep, RefusesAsk};
ghost use Rattle.calls.specs.vocabulary.Asks.{SpaceUnless, copies_in, AsksHeld, AsksItems};

use crate::lend::add_request;
use crate::{Answer, Item, ItemRow, NewRequest, Refusal, lookups, tests};
use rows::codes::{A_CLIENT_END, GREATEST_DEPTH, is_end};
use rows::layout::{ITEMS, KIND, OBJECT, RIGHTS};
use rows::{Rights, find, read};

// no item, with no row
const NO_ITEM: ItemRow = ItemRow {
    item: Item { row: 0, rights: 0 },
    word: 0,
    copies: 0,
};

// The item with its row, where p holds it; no item has no row.
fn item_row(t: &[u32], n: usize, p: u32, item: Item) -> Option<ItemRow>
    requires { IsTables t.now × (n ≤ ROWS) }
    ensures fits { LookedFits n result }
    ensures found { LooksUp t.now n p item result }
{
    if item.row == 0 {
        return Some(ItemRow {
            item,
            word: 0,
            copies: 0,
        });
    }
    let Some(i) = lookups::held_by(t, n, p, item.row) else {
        return None;
    };
    let word = (i + 1) as u32;
    if is_end(t[KIND + i]) {
        return Some(ItemRow {
            item,
            word,
            copies: 0,
        });
    }
    Some(ItemRow {
        item,
        word,
        copies: 1,
    })
}

// Whether the item's row lacks transfer, where it is copied, or a right that is lent.
fn lacks_right(t: &[u32], x: ItemRow) -> bool
    requires { IsTables t.now × ItemFits ROWS x }
    ensures { LacksRight t.now x result }
{
    if x.word == 0 {
        return false;
    }
    let i = x.word as usize - 1;
    let rights = Rights(t[RIGHTS + i]);
    let lent = Rights(x.item.rights);
    let barred = (x.copies == 1) & !rights.contains(Rights::TRANSFER);
    barred | !lent.within(rights)
}

fn any_lacks(t: &[u32], items: [ItemRow; ITEMS]) -> bool
    requires { IsTables t.now × ItemsFit ROWS items }
    ensures { AnyLacks t.now items result }
{
    items.iter().any(|&x| lacks_right(t, x))
}

// Whether the item is an end of the port c, or of a port with an open request.
fn item_busy(t: &[u32], m: usize, c: u32, x: ItemRow) -> bool
    requires { IsTables t.now × (m ≤ REQUESTS) × ItemFits ROWS x }
    ensures { ItemBusy t.now m c x result }
{
    if x.word == 0 {
        return false;
    }
    if x.copies == 1 {
        return false;
    }
    let i = x.word as usize - 1;
    let port = t[OBJECT + i];
    (port == c) | tests::has_open(t, m, port)
}

fn any_busy(t: &[u32], m: usize, c: u32, items: [ItemRow; ITEMS]) -> bool
    requires { IsTables t.now × (m ≤ REQUESTS) × ItemsFit ROWS items }
    ensures { AnyItemBusy t.now m c items result }
{
    items.iter().any(|&x| item_busy(t, m, c, x))
}

// Whether the item is copied and the copy, over the port whose client end is in slot i, too deep.
fn copy_deep(t: &[u32], i: usize, x: ItemRow) -> bool
    requires { IsTables t.now × (i < ROWS) × ItemFits ROWS x }
    ensures { CopyDeep t.now i x result }
{
    if x.copies == 0 {
        return false;
    }
    GREATEST_DEPTH < lookups::depth_over(t, x.word, (i + 1) as u32)
}

fn any_deep(t: &[u32], i: usize, items: [ItemRow; ITEMS]) -> bool
    requires { IsTables t.now × (i < ROWS) × ItemsFit ROWS items }
    ensures { AnyDeep t.now i items result }
{
    items.iter().any(|&x| copy_deep(t, i, x))
}

// How many rows the items take.
fn copies_of(items: [ItemRow; ITEMS]) -> u32
    requires { ItemsFit ROWS items }
    ensures few { result ≤ ITEMS }
    ensures counted { result ≡ copies_in items }
{
    let mut copies = 0;
    for x in items {
        copies += x.copies;
    }
    copies
}

// What refuses the request w, whose port and items the asker holds: 8 and on.
fn ask_refusal(
    t: &[u32],
    n: usize,
    m: usize,
    w: NewRequest,
    items: [ItemRow; ITEMS],
) -> Result<(), Refusal>
    requires { IsTables t.now × (n ≤ ROWS) × (m ≤ REQUESTS) × (w.slot < n) × ItemsFit n items }
    ensures lowest { RefusesAsk t.now n m w items (refusal_in result) }
    ensures space { SpaceUnless (refusal_in result) n m w.number (copies_in items) }
{
    let i = w.slot;
    if t[KIND + i] != A_CLIENT_END {
        return Err(Refusal::WrongKind);
    }
    if any_lacks(t, items) {
        return Err(Refusal::NoRight);
    }
    if tests::has_open(t, m, w.port) | any_busy(t, m, w.port, items) {
        return Err(Refusal::Busy);
    }
    if any_deep(t, i, items) {
        return Err(Refusal::TooDeep);
    }
    tests::request_refusal(n, m, w.number, copies_of(items))
}

// ask of the request w, whose port and items the asker holds.
fn ask_held(
    t: &mut [u32],
    n: usize,
    w: NewRequest,
    items: [ItemRow; ITEMS],
) -> Result<Answer, Refusal>
    requires { IsTables t.old × (n ≤ ROWS) × (w.slot < n) × ItemsFit n items }
    ensures answers { AsksHeld t.old n w items t.new (answer_in result) }
    ensures long { IsTables t.new }
{
    let m = find::count_requests(t);
    ask_refusal(t, n, m, w, items)?;
    add_request(t, n, m, w, items);
    Ok(Answer::Made(w.number))
}

// ask of the request w, whose port the asker holds: 7 for an item that it does not hold.
fn ask_items(
    t: &mut [u32],
    n: usize,
    w: NewRequest,
    items: [Item; ITEMS],
) -> Result<Answer, Refusal>
    requires { IsTables t.old × (n ≤ ROWS) × (w.slot < n) }
    ensures answers { AsksItems t.old n w items t.new (answer_in result) }
    ensures long { IsTables t.new }
{
    let mut rows = [NO_ITEM; ITEMS];
    for k in 0..ITEMS {
        let Some(x) = item_row(t, n, w.asker, items[k]) else {
            return Err(Refusal::NotHeld);
        };
        rows[k] = x;
    }
    ask_held(t, n, w, rows)
}

// ask: 7 for a row that the caller does not hold; then the items' refusals.
// Ruled out: an item is lent where a later one is refused; copies that take their numbers before the request.
pub fn ask(t: &mut [u32], p: u32, c: u32, items: [Item; ITEMS]) -> Answer
    requires { IsTables t.old × IsProcess p }
    ensures performs { PerformsApart t.old (Call.Ask p c items) t.new result }
    ensures long { IsTables t.new }
{
    let n = find::count_rows(t);
    let Some(i) = lookups::held_by(t, n, p, c) else {
        return Refusal::NotHeld.into();
    };
    let request = NewRequest {
        number: read::next_of(t),
        port: c,
        slot: i,
        asker: p,
    };
    ask_items(t, n, request, items).unwrap_or_else(Answer::from)
}
