// The clauses of soundness of requests, each named as in rows/specs/Sound.antt: of one request, and the loops over all
// requests. Slots of rows are given plus 1, 0 for none, no Option: `row_slot` and `word_at` count so, and sources do.
// t, n and the fact that sources are older travel together; a struct of them would be named in each clause, and made
// anew in each public function: no plainer.
ghost use Rattle.std.specs.Prelude.{◌≡◌, true, not, ◌||◌, [], ◌∷◌, suc, ◌<◌, ◌≤◌, leb, ltb};
ghost use Rattle.rows.specs.Lists.{all, member, distinct, some, nonzero};
ghost use Rattle.rows.specs.Tables.{is_listed};
ghost use Rattle.rows.specs.Sound.{numbers_apart};
ghost use Rattle.rows.specs.Layout.{request_at, records_in, row_slot};
ghost use Rattle.rows.specs.vocabulary.Sizes.{ROWS, REQUESTS, VIA, REQUEST, IsTables, IsRecords};
ghost use Rattle.rows.specs.vocabulary.OfState.{OfRows, OfRequests, TestsTables, Tests};
ghost use Rattle.soundness_loans.specs.vocabulary.Clauses.{OfRequest, OfItem, word_at, FirstNotBelow};
ghost use Rattle.soundness_loans.specs.vocabulary.Clauses.{ListsNone, OfItems, SlotsWithin, ViasOlder};
ghost use Rattle.soundness_loans.specs.vocabulary.Clauses.{is_copy_for, may_be_lent};
ghost use Rattle.soundness_loans.specs.vocabulary.Clauses.{items_listable, request_right, standing_port};
ghost use Rattle.soundness_loans.specs.vocabulary.Clauses.{ports_right, all_of_requests, is_free};
ghost use Rattle.soundness_loans.specs.vocabulary.Clauses.{with_mark};

use rows::Request;
use rows::codes::{A_CLIENT_END, is_end};
use rows::find::row_among;
use rows::layout::{ITEMS, KIND, NUMBER, Q_NUMBER, REQUEST, ROWS, RowMarks, VIA};
use rows::read::request_at;
use rows::records::listed;

// The slot plus 1 of the row numbered x, of n rows; 0 for none.
// Ruled out: the slot of another row; a slot past the rows in use.
pub fn slot_among(t: &[u32], n: usize, x: u32) -> usize
    requires { IsTables t.now × (n ≤ ROWS) }
    ensures within { result ≤ n }
    ensures found { OfRows t.now n result (λ rs. row_slot rs x) }
{
    if x == 0 {
        return 0;
    }
    let Some(i) = row_among(t, n, x) else {
        return 0;
    };
    i + 1
}

// The word of a row's slot in the column that starts at c. Ruled out: the word of the slot after; a word for none.
fn word_at(t: &[u32], c: usize, s: usize) -> u32
    requires { IsTables t.now × (c ≤ REQUEST) × (s ≤ ROWS) }
    ensures { result ≡ word_at t.now c s }
{
    if s == 0 {
        return 0;
    }
    t[c + (s - 1)]
}

// ---- the clauses for one request, v
// Ruled out: a request fetched twice; the word of another request.
fn fetched_in_range(v: Request) -> bool
    ensures { result ≡ leb v.fetched 1 }
{
    v.fetched <= 1
}

// Ruled out: the port for the requester; yes for a process that is not listed.
fn requester_listed(v: Request, p: &[u32]) -> bool
    requires { IsRecords p.now }
    ensures { result ≡ is_listed (records_in p.now) v.asker }
{
    listed(p, v.asker)
}

// An item that is there is none of those after it. Ruled out: no for 0 twice; yes for an item that is one of them.
fn item_apart(e: u32, after: &[u32]) -> bool
    ensures { result ≡ (not (some e) || not (member e after.now)) }
{
    !(0 < e) | !after.contains(&e)
}

// No item stands twice. Ruled out: the third item is the fourth too; no for two items that are not there.
fn items_apart(items: [u32; ITEMS]) -> bool
    ensures { result ≡ distinct (nonzero items) }
{
    let mut apart = true;
    for k in 0..ITEMS {
        apart = apart & item_apart(items[k], &items[k + 1..]);
    }
    apart
}

// The number of the second source of a row's slot. Ruled out: the first source; the number of the row after it.
fn via_number(t: &[u32], n: usize, s: usize) -> u32
    requires sizes { IsTables t.now × (n ≤ ROWS) × (s ≤ n) }
    requires vias { ViasOlder t.now n }
    ensures { result ≡ word_at t.now 0 (word_at t.now VIA s) }
{
    let via = word_at(t, VIA, s);
    word_at(t, NUMBER, via as usize)
}

// (rules S13, S24) The row numbered e, whose slot plus 1 is s, is a copy for it: it bears its number, is newer, and
// came over its port.
// Ruled out: a copy that bears another request; one over another port; one that is older than the request.
fn is_copy_for(t: &[u32], n: usize, v: Request, e: u32, s: usize) -> bool
    requires sizes { IsTables t.now × (n ≤ ROWS) × (s ≤ n) }
    requires vias { ViasOlder t.now n }
    ensures { OfItem t.now v e s result is_copy_for }
{
    let bears = word_at(t, REQUEST, s);
    let over = via_number(t, n, s);
    (0 < bears) & ((bears == v.number) & ((v.number < e) & (v.port == over)))
}

// An item that is there, whose slot plus 1 is s, is an end older than the request, or a copy for it.
// Ruled out: an end newer than the request; an operation that bears no request.
fn may_be_listed(t: &[u32], n: usize, v: Request, e: u32, s: usize) -> bool
    requires sizes { IsTables t.now × (n ≤ ROWS) × (s ≤ n) }
    requires vias { ViasOlder t.now n }
    ensures { OfItem t.now v e s result (λ x y. not (some e) || may_be_lent x y) }
{
    if e == 0 {
        return true;
    }
    let kind = word_at(t, KIND, s);
    let end = is_end(kind);
    let copy = is_copy_for(t, n, v, e, s);
    (end & (e < v.number)) | copy
}

// Each item may be listed, where the slots of all four are known.
// Ruled out: the fourth item is not tested; no for an item that is not there.
pub fn items_lent(t: &[u32], n: usize, slots: [usize; 4], j: usize) -> bool
    requires sizes { IsTables t.now × (n ≤ ROWS) × (j < REQUESTS) × SlotsWithin n slots }
    requires vias { ViasOlder t.now n }
    ensures { OfItems t.now j slots result items_listable }
{
    let v = request_at(t, j);
    let mut lent = true;
    for k in 0..ITEMS {
        lent = lent & may_be_listed(t, n, v, v.items[k], slots[k]);
    }
    lent
}

// Whether it lists nothing: most requests do not, and then its items need no test.
// Ruled out: yes where the fourth item alone is there; the items of another request.
pub fn lists_none(t: &[u32], j: usize) -> bool
    requires { IsTables t.now × (j < REQUESTS) }
    ensures { result ≡ true → ListsNone t.now j }
{
    request_at(t, j).items == [0; ITEMS]
}

// No item stands twice, and nothing is tested of none. Ruled out: a request with one item passes untested.
fn items_once(v: Request) -> bool
    ensures { result ≡ distinct (nonzero v.items) }
{
    v.items == [0; ITEMS] || items_apart(v.items)
}

// The clauses but for number, port and items. Ruled out: one of the three alone decides; the tests of another request.
fn request_right(v: Request, p: &[u32]) -> bool
    requires { IsRecords p.now }
    ensures { result ≡ request_right (records_in p.now) v }
{
    let fetched = fetched_in_range(v);
    let asked = requester_listed(v, p);
    let once = items_once(v);
    fetched & (asked & once)
}

// A request is newer than both ends of its port. Ruled out: newer than the client end alone; a sum that wraps to 0.
fn newer_than_port(port: u32, q: u32) -> bool
    ensures { result ≡ ltb (suc port) q }
{
    u64::from(port) + 1 < u64::from(q)
}

// The slot plus 1 of the client end of the request's port, if the port stands.
// Ruled out: the slot of a server end; a slot where the request is older than its port.
fn standing_port(t: &[u32], n: usize, v: Request) -> usize
    requires { IsTables t.now × (n ≤ ROWS) }
    ensures within { result ≤ n }
    ensures found { OfRows t.now n result (λ rs. standing_port rs v) }
{
    let s = slot_among(t, n, v.port);
    let kind = word_at(t, KIND, s);
    let newer = newer_than_port(v.port, v.number);
    if (kind == A_CLIENT_END) & newer {
        return s;
    }
    0
}

// Marks a slot, and says whether it was free. Ruled out: free a second time; 0, which is no slot, is free.
fn claim(marks: &mut RowMarks, s: usize) -> bool
    requires { s ≤ ROWS }
    ensures free { result ≡ is_free marks.old s }
    ensures marked { marks.new ≡ with_mark marks.old s }
{
    if s == 0 {
        return false;
    }
    let i = s - 1;
    let was = marks[i];
    marks[i] = true;
    !was
}

// ---- the loops
// The first slot of n, from a slot on, whose row's number is not below q; n for none.
// Ruled out: a slot whose row's number is below q; one past the first that is not.
fn first_not_below(t: &[u32], n: usize, from: usize, q: u32) -> usize
    requires { IsTables t.now × (n ≤ ROWS) × (from ≤ n) }
    ensures { FirstNotBelow t.now n from q result }
{
    for s in from..n {
        if q <= t[NUMBER + s] {
            return s;
        }
    }
    n
}

// (rule S3) No request has the number of a row. Both rise, so one walk along the rows serves all requests.
// Ruled out: yes where the newest request has the number of a row; the rows from the oldest on for each request.
fn numbers_apart(t: &[u32], n: usize, m: usize) -> bool
    requires { IsTables t.now × (n ≤ ROWS) × (m ≤ REQUESTS) }
    ensures { TestsTables t.now n m result (λ st. numbers_apart st.rows st.requests) }
{
    // one column is read, not a Request; .all would stop early
    let mut apart = true;
    let mut s = 0;
    for j in 0..m {
        let q = t[Q_NUMBER + j];
        s = first_not_below(t, n, s, q);
        let taken = (s < n) & (t[NUMBER + s] == q);
        apart = !taken & apart;
    }
    apart
}

// The clauses of each request by itself. Ruled out: the last request alone decides; a request past the first m.
fn requests_right(t: &[u32], p: &[u32], m: usize) -> bool
    requires { IsTables t.now × IsRecords p.now × (m ≤ REQUESTS) }
    ensures { OfRequests t.now m result (all (request_right (records_in p.now))) }
{
    let mut right = true;
    for j in 0..m {
        let v = request_at(t, j);
        right = request_right(v, p) & right;
    }
    right
}

// Every port stands, and has one request. Ruled out: two requests on one port; a port that no longer stands.
fn ports_right(t: &[u32], n: usize, m: usize) -> bool
    requires { IsTables t.now × (n ≤ ROWS) × (m ≤ REQUESTS) }
    ensures { TestsTables t.now n m result (λ st. ports_right st.rows st.requests) }
{
    let mut marks = [false; ROWS];
    let mut right = true;
    for j in 0..m {
        let v = request_at(t, j);
        let s = standing_port(t, n, v);
        right = claim(&mut marks, s) & right;
    }
    right
}

// The clauses of requests, but for what their items are.
// Ruled out: a request on a port that another is open on; an item that stands twice.
pub fn requests_sound(t: &[u32], p: &[u32], n: usize, m: usize) -> bool
    requires { IsTables t.now × IsRecords p.now × (n ≤ ROWS) × (m ≤ REQUESTS) }
    ensures { Tests t.now p.now n m result all_of_requests }
{
    let apart = numbers_apart(t, n, m);
    let right = requests_right(t, p, m);
    let ports = ports_right(t, n, m);
    apart & (right & ports)
}
