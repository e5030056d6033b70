// The clauses of soundness of holders, each named as in rows/specs/Sound.antt: the listing of rows by requests, from
// the newest request to the oldest. It tells copies too: each item is an end or a copy for the request that lists it,
// so a row that bears a request and is listed is listed by that one. Slots of rows are given plus 1, 0 for none.
// No Option of a slot: `row_slot`, `code_at` and `list_at` count from 1 with 0 for none, and sources stand so in t.
// The listing is a column of bytes, 0 for a row not listed, no column of enums: the loop over rows tests many at once.
ghost use Rattle.std.specs.Prelude.{◌≡◌, ◌||◌, ◌<◌, ◌≤◌, eqb};
ghost use Rattle.rows.specs.Lists.{some};
ghost use Rattle.rows.specs.Codes.{is_system};
ghost use Rattle.rows.specs.Sound.{same};
ghost use Rattle.rows.specs.Layout.{request_at};
ghost use Rattle.rows.specs.vocabulary.Sizes.{ROWS, REQUESTS, IsTables};
ghost use Rattle.rows.specs.vocabulary.OfState.{OfRows, TestsTables};
ghost use Rattle.soundness_loans.specs.vocabulary.Clauses.{OfRequest, SlotsWithin, ViasOlder, all_of_holders};
ghost use Rattle.soundness_loans.specs.vocabulary.Clauses.{listing_code};
ghost use Rattle.soundness_loans.specs.vocabulary.Clauses.{code_at, list_at, list_all, any_listed, item_slots};
ghost use Rattle.soundness_loans.specs.vocabulary.Clauses.{once_in, marked_in, listed_right, relisted, held_to};

use crate::request_clauses::{items_lent, lists_none, slot_among};
use rows::Request;
use rows::codes::THE_SYSTEM;
use rows::layout::{PLACE, REQUEST, ROWS};
use rows::read::request_at;

// The slots of the items of a request. Ruled out: three of the four; a slot past the rows in use.
fn item_slots(t: &[u32], n: usize, v: Request) -> [usize; 4]
    requires { IsTables t.now × (n ≤ ROWS) }
    ensures within { SlotsWithin n result }
    ensures found { OfRows t.now n result (λ rs. item_slots rs v) }
{
    v.items.map(|e| slot_among(t, n, e))
}

// Whether a slot is listed. Ruled out: 0, which is no slot, is listed; the slot after decides.
fn is_listed(listing: &[u8; ROWS], s: usize) -> bool
    requires { s ≤ ROWS }
    ensures { result ≡ some (code_at listing.now s) }
{
    if s == 0 {
        return false;
    }
    let code = listing[s - 1];
    0 < code
}

// Whether one of four slots is listed. Ruled out: the fourth slot is not looked at; all four must be.
fn any_listed(listing: &[u8; ROWS], slots: [usize; 4]) -> bool
    requires { SlotsWithin ROWS slots }
    ensures { result ≡ any_listed listing.now slots }
{
    // no .iter().any(..): its proof asks of each item that it is a slot, and did not close
    let mut listed = false;
    for s in slots {
        listed = listed | is_listed(listing, s);
    }
    listed
}

// Lists a slot, unless a newer request did. Ruled out: an older request's code over a newer one's; the slot after.
fn list_at(listing: &mut [u8; ROWS], s: usize, code: u8)
    requires { s ≤ ROWS }
    ensures { listing.new ≡ list_at code s listing.old }
{
    if s == 0 {
        return;
    }
    let i = s - 1;
    if listing[i] == 0 {
        listing[i] = code;
    }
}

// Lists four slots. Ruled out: the fourth slot is left out; the code of a newer request is lost.
fn mark_listing(listing: &mut [u8; ROWS], slots: [usize; 4], code: u8)
    requires { SlotsWithin ROWS slots }
    ensures { listing.new ≡ list_all code slots listing.old }
{
    for s in slots {
        list_at(listing, s, code);
    }
}

// The code of what a request lists: 1 where it is fetched, 2 where it waits. Ruled out: 0; the two exchanged.
fn code_of(fetched: bool) -> u8
    ensures { result ≡ listing_code fetched }
{
    if fetched {
        return 1;
    }
    2
}

// Lists the slots of the items of a request, and says whether it is fetched or no newer request lists one.
// Ruled out: its own items count as listed by a newer one; an item is left out.
fn listed_once(listing: &mut [u8; ROWS], slots: [usize; 4], v: Request) -> bool
    requires { SlotsWithin ROWS slots }
    ensures once { result ≡ once_in listing.old slots v }
    ensures all { listing.new ≡ marked_in listing.old slots v }
{
    let fetched = v.fetched == 1;
    let newer = any_listed(listing, slots);
    let code = code_of(fetched);
    mark_listing(listing, slots, code);
    fetched | !newer
}

// The items of the request in slot j: each may be listed, and the request is fetched or no newer one lists them; then
// they are listed. Each item is looked up once.
// Ruled out: a request with one item passes untested; one of the two alone decides.
fn list_request(t: &[u32], n: usize, listing: &mut [u8; ROWS], j: usize) -> bool
    requires sizes { IsTables t.now × (n ≤ ROWS) × (j < REQUESTS) }
    requires vias { ViasOlder t.now n }
    ensures right { OfRequest t.now n j result (listed_right listing.old) }
    ensures marked { OfRequest t.now n j listing.new (relisted listing.old) }
{
    let none = lists_none(t, j);
    if none {
        return true;
    }
    let v = request_at(t, j);
    let slots = item_slots(t, n, v);
    let lent = items_lent(t, n, slots, j);
    let once = listed_once(listing, slots, v);
    lent & once
}

// Whether a row's place is the system exactly if its listing says so.
// Ruled out: yes for a row that waits in a c-list; yes for a row with the system that no request lists.
fn system_holds(place: u32, code: u8) -> bool
    ensures { result ≡ same (is_system place) (eqb code 2) }
{
    let there = place == THE_SYSTEM;
    let waits = code == 2;
    (there & waits) | (!there & !waits)
}

// (rule S24) Whether a row bears no request, or is listed.
// Ruled out: yes for a copy that no request lists; no for other rows.
fn copy_listed(bears: u32, code: u8) -> bool
    ensures { result ≡ (eqb bears 0 || some code) }
{
    (bears == 0) | (0 < code)
}

// Whether each of the first n rows is held, and listed, as it must.
// Ruled out: the last row alone decides; one past them.
fn rows_held(t: &[u32], n: usize, listing: &[u8; ROWS]) -> bool
    requires { IsTables t.now × (n ≤ ROWS) }
    ensures { result ≡ held_to t.now listing.now n }
{
    let mut right = true;
    for i in 0..n {
        let code = listing[i];
        let held = system_holds(t[PLACE + i], code);
        let listed = copy_listed(t[REQUEST + i], code);
        right = (held & listed) & right;
    }
    right
}

// The clauses of items and of who holds what is lent.
// Ruled out: an item that is a copy for another request; an older request that is not fetched and lists an item too.
pub fn holders_sound(t: &[u32], n: usize, m: usize) -> bool
    requires sizes { IsTables t.now × (n ≤ ROWS) × (m ≤ REQUESTS) }
    requires vias { ViasOlder t.now n }
    ensures { TestsTables t.now n m result all_of_holders }
{
    let mut listing = [0u8; ROWS];
    let mut right = true;
    for j in (0..m).rev() {
        right = list_request(t, n, &mut listing, j) & right;
    }
    let held = rows_held(t, n, &listing);
    right & held
}
