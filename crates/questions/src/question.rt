// The questions that go back along the sources: does a row come from a request, is it lent; and is an end on loan.
// (rules R9, R10) A copy goes when the port under it goes, and a port goes when its operation row goes:
// row question and port question call each other, and the depth falls.
ghost use Rattle.std.specs.Prelude.{◌≡◌, ◌<◌};
ghost use Rattle.rows.specs.Lists.{member};
ghost use Rattle.rows.specs.Layout.{request_at};
ghost use Rattle.rows.specs.vocabulary.Sizes.{ROWS, REQUESTS, IsTables};
ghost use Rattle.questions.specs.vocabulary.Questions.{OnLoan, Comes, Lent, sourceless, Touched, Reaches};
ghost use Rattle.questions.specs.vocabulary.Questions.{ViaReaches, PortReaches};

use rows::codes::{GREATEST_DEPTH, is_end};
use rows::find::requests_in;
use rows::layout::{KIND, NUMBER, REQUEST, ROWS, SOURCE, VIA};
use rows::read::request_at;

// the greatest source word: the last slot plus 1
pub const LAST_WORD: u32 = ROWS as u32;

// Whether the request in slot j lists e.
fn lists_item(t: &[u32], j: usize, e: u32) -> bool
    requires { IsTables t.now × (j < REQUESTS) }
    ensures { result ≡ member e (request_at t.now j).items }
{
    request_at(t, j).items.contains(&e)
}

// Whether an open request lists e.
// Every list is looked at, with no way out early, so that the loop runs over many words at once.
// Ruled out: no, where the last item of the newest request is e; yes, where e is only a request's port.
pub fn on_loan(t: &[u32], e: u32) -> bool
    requires { IsTables t.now }
    ensures { OnLoan t.now e result }
{
    let count = requests_in(t);
    let mut found = false;
    for j in 0..count {
        // not any: it stops early, and looks at one request at a time
        found = lists_item(t, j, e) | found;
    }
    found
}

// What a question asks of the row in slot i itself:
// for a request q whether it bears q, for 0 whether it is lent itself: a number, not an enum, as Reaches has it.
fn touched(t: &[u32], i: usize, q: u32) -> bool
    requires { IsTables t.now × (i < ROWS) }
    ensures { Touched t.now i q result }
{
    let borne = t[REQUEST + i];
    if q != 0 {
        return borne == q;
    }
    if borne != 0 {
        return true;
    }
    if is_end(t[KIND + i]) {
        return on_loan(t, t[NUMBER + i]);
    }
    false
}

// Whether the row at source word s (its slot plus 1, 0 for none) or a row that it comes from is touched,
// d steps back at most. It goes along the first sources, and asks of a second source where there is one.
// Ruled out: no, where the second source alone is touched; yes for a word 0, where there is no row.
#[cycle(port_question_row_question_via_question)]
fn row_question(t: &[u32], s: u32, q: u32, d: u32) -> bool
    requires { IsTables t.now }
    ensures { Reaches t.now s q d result }
{
    let mut word = s;
    for left in (0..d).rev() {
        if word == 0 {
            return false;
        }
        if LAST_WORD < word {
            return false;
        }
        let i = word as usize - 1;
        if touched(t, i, q) {
            return true;
        }
        if via_question(t, i, q, left + 1) {
            return true;
        }
        word = t[SOURCE + i];
    }
    false
}

// The same of the second source of the row in slot i, d - 1 steps back at most.
// Of a copy it is the port that it was lent over.
// Ruled out: yes, where there is no second source; no, where a copy's port has gone.
#[cycle(port_question_row_question_via_question)]
fn via_question(t: &[u32], i: usize, q: u32, d: u32) -> bool
    requires { IsTables t.now × (i < ROWS) × (0 < d) }
    ensures { ViaReaches t.now i q d result }
{
    let via = t[VIA + i];
    if via == 0 {
        return false;
    }
    if t[REQUEST + i] == 0 {
        return row_question(t, via, q, d - 1);
    }
    port_question(t, via, q, d - 1)
}

// The same of the port whose client end is at source word c: the end itself, or its operation row.
// Ruled out: no, where the end itself is on loan; no, where the operation row comes from q.
#[cycle(port_question_row_question_via_question)]
fn port_question(t: &[u32], c: u32, q: u32, d: u32) -> bool
    requires { IsTables t.now }
    ensures { PortReaches t.now c q d result }
{
    let at = c as usize;
    if at == 0 {
        return false;
    }
    if ROWS < at {
        return false;
    }
    if d == 0 {
        return false;
    }
    let i = at - 1;
    if touched(t, i, q) {
        return true;
    }
    row_question(t, t[SOURCE + i], q, d - 1)
}

// Ruled out: yes for a row that has one source.
fn has_no_source(t: &[u32], e: usize) -> bool
    requires { IsTables t.now × (e < ROWS) }
    ensures { result ≡ sourceless t.now e }
{
    (t[SOURCE + e] == 0) & (t[VIA + e] == 0)
}

// Whether the row in slot e comes from request q. Most rows say it themselves: they bear q, or have no source.
// Ruled out: no, where the port under a copy comes from q; the answer for the row in the next slot.
pub fn comes(t: &[u32], e: usize, q: u32) -> bool
    requires { IsTables t.now × (e < ROWS) }
    ensures { Comes t.now e q result }
{
    if t[REQUEST + e] == q {
        return true;
    }
    if has_no_source(t, e) {
        return false;
    }
    row_question(t, (e + 1) as u32, q, GREATEST_DEPTH)
}

// Whether the row in slot e is lent. A row that has no source says it itself.
// Ruled out: no, where the oldest of twelve rows in a line is lent;
// yes, where a row bears no request and no end is on loan.
pub fn lent(t: &[u32], e: usize) -> bool
    requires { IsTables t.now × (e < ROWS) }
    ensures { Lent t.now e result }
{
    if has_no_source(t, e) {
        return touched(t, e, 0);
    }
    row_question(t, (e + 1) as u32, 0, GREATEST_DEPTH)
}
