// Look-up: the slot of a row or a request, and how many slots are in use.
ghost use Rattle.std.specs.Prelude.{◌≡◌, ◌+◌, ◌<◌, ◌≤◌, false, length, take};
ghost use Rattle.std.specs.List.{list_any, position_or_len};
ghost use Rattle.rows.specs.Layout.{leading, rows_in, requests_in};
ghost use Rattle.rows.specs.vocabulary.Slots.{Within};
ghost use Rattle.rows.specs.vocabulary.Searches.{LastAt, LastAtIfAscending, LeadingIfFront};
ghost use Rattle.rows.specs.vocabulary.Searches.{is_up_to, step_to, LastUpToIfFront};
ghost use Rattle.rows.specs.vocabulary.Finds.{CountsRows, CountsRequests};
ghost use Rattle.rows.specs.vocabulary.Finds.{FindsRowAmong, FindsRow, FindsRequest, FindsOpen};
ghost use Rattle.rows.specs.vocabulary.Sizes.{ROWS, REQUESTS, IsTables};

use crate::layout::{KIND, NUMBER, Q_ASKER, Q_NUMBER, Q_PORT};

// ---- searches of a column
// Both take the column as it is lent and the count of what is in use beside it, as their callers above have them.
// The position of n among the first words of a column, which rise: by halves.
// Ruled out: a position at or past the count; nothing where n is there.
pub fn search(column: &[u32], count: usize, n: u32) -> Option<usize>
    requires { count ≤ length column.now }
    ensures within { Within count result }
    ensures found { LastAtIfAscending column.now count n result }
{
    let mut lo = 0;
    let mut hi = count;
    // a while: std's binary_search stops at another place where numbers do not rise, and takes up to 1.3 times as long
    while lo < hi {
        let mid = lo + (hi - lo) / 2;
        let x = column[mid];
        if x == n {
            return Some(mid);
        }
        if x < n {
            lo = mid + 1;
        } else {
            hi = mid;
        }
    }
    None
}

// The last position of n among the first words of a column, in whatever order they stand: from the last word back.
// Ruled out: an earlier position where n stands again; nothing where n is there.
pub fn search_back(column: &[u32], count: usize, n: u32) -> Option<usize>
    requires { count ≤ length column.now }
    ensures within { Within count result }
    ensures found { LastAt column.now count n result }
{
    for i in (0..count).rev() {
        if column[i] == n {
            return Some(i);
        }
    }
    None
}

// ---- how many slots are in use
// Of rows and of requests there is one function each, a line long: each names the column that it counts.
// How many elements stand before the first x among whole eights, of which none has it: each eight is looked at at once.
fn skip_eights<T: PartialEq>(xs: &[T], x: &T) -> usize
    ensures within { result ≤ length xs.now }
    ensures passed { list_any (λ y. T.eq y x.now) (take result xs.now) ≡ false }
{
    let eights = xs.len() / 8;
    for k in 0..eights {
        let at = k * 8;
        if xs[at..at + 8].contains(x) {
            return at;
        }
    }
    eights * 8
}

// How many elements stand before the first x; all where there is none.
// Ruled out: a count that stops at another element; one that passes an x.
pub fn before_first<T: PartialEq>(xs: &[T], x: &T) -> usize
    ensures counted { result ≡ position_or_len (λ y. T.eq y x.now) xs.now }
    ensures within { result ≤ length xs.now }
{
    for i in skip_eights(xs, x)..xs.len() {
        if xs[i] == *x {
            return i;
        }
    }
    xs.len()
}

// How many words stand before the first 0.
// Ruled out: a count that stops at a word that is not 0; one that passes a 0.
pub fn leading_in(column: &[u32]) -> usize
    ensures counted { result ≡ leading column.now }
    ensures within { result ≤ length column.now }
{
    before_first(column, &0)
}

// How many slots of rows are in use.
// Ruled out: a slot more than stand before the first number 0; more than 1,024.
#[tactic(auto, unfolding(crate::specs::Layout::rows_in, crate::specs::Limits::row_slots))]
pub fn rows_in(t: &[u32]) -> usize
    requires { IsTables t.now }
    ensures counted { result ≡ rows_in t.now }
    ensures within { result ≤ ROWS }
{
    leading_in(&t[NUMBER..KIND])
}

// How many slots of requests are in use.
// Ruled out: a count over the rows' numbers; more than 128.
pub fn requests_in(t: &[u32]) -> usize
    requires { IsTables t.now }
    ensures counted { result ≡ requests_in t.now }
    ensures within { result ≤ REQUESTS }
{
    leading_in(&t[Q_NUMBER..Q_PORT])
}

// How many words stand before the first 0, where those in use stand in front: by halves.
// Ruled out: a count one short where all are in use; one more where none is.
fn front_in(column: &[u32]) -> usize
    ensures within { result ≤ length column.now }
    ensures counted { LeadingIfFront column.now result }
{
    column.partition_point(|&n| n != 0)
}

// How many rows stand, in words that represent a state.
// Ruled out: the requests; more than 1,024.
pub fn count_rows(t: &[u32]) -> usize
    requires { IsTables t.now }
    ensures counted { CountsRows t.now result }
    ensures within { result ≤ ROWS }
{
    front_in(&t[NUMBER..KIND])
}

// How many requests are open, in words that represent a state.
// Ruled out: the rows; more than 128.
pub fn count_requests(t: &[u32]) -> usize
    requires { IsTables t.now }
    ensures counted { CountsRequests t.now result }
    ensures within { result ≤ REQUESTS }
{
    front_in(&t[Q_NUMBER..Q_PORT])
}

// ---- the slot of a row
// Whether x is a number in use, and at most n: one comparison, since 0 becomes the greatest word.
fn is_up_to(x: u32, n: u32) -> bool
    ensures { result ≡ is_up_to n x }
{
    x.wrapping_sub(1) < n
}

// A step of the search: to a position that is further on, if the number there is up to n.
#[tactic(auto, unfolding(crate::specs::vocabulary::Searches::step_to))]
fn step(column: &[u32], n: u32, at: usize, half: usize) -> usize
    requires { at + half < length column.now }
    ensures { result ≡ step_to column.now n at half }
{
    let mid = at + half;
    if is_up_to(column[mid], n) {
        return mid;
    }
    at
}

// The last position of a number up to n, where such numbers stand in front; 0 if there is none. As many steps for each
// n, and none that the processor has to guess: the compiler unrolls the loop and picks each step without a branch.
// Ruled out: a position at or past the end; a number up to n further on.
fn last_up_to(column: &[u32], n: u32) -> usize
    requires { 0 < length column.now }
    ensures within { result < length column.now }
    ensures last { LastUpToIfFront column.now n result }
{
    let mut at = 0;
    let mut width = column.len();
    // a while: partition_point takes twice the instructions, 138 for 65 at 1,024 rows
    while 1 < width {
        let half = width / 2;
        at = step(column, n, at, half);
        width -= half;
    }
    at
}

// The slot of the row numbered n among so many rows: for callers that look up several.
// Ruled out: the slot of another row; one at or past the count.
pub fn row_among(t: &[u32], count: usize, n: u32) -> Option<usize>
    requires { IsTables t.now × (count ≤ ROWS) }
    ensures within { Within count result }
    ensures found { FindsRowAmong t.now count n result }
{
    let last = last_up_to(&t[NUMBER..KIND], n);
    if (last < count) & (t[NUMBER + last] == n) {
        return Some(last);
    }
    None
}

// The slot of the row numbered n.
// Ruled out: the slot of another row; a slot for a number that no row has, 0 too.
pub fn row_slot(t: &[u32], n: u32) -> Option<usize>
    requires { IsTables t.now }
    ensures within { Within (rows_in t.now) result }
    ensures found { FindsRow t.now n result }
{
    let count = rows_in(t);
    row_among(t, count, n)
}

// ---- the slot of a request
// The slot of the request numbered q.
// Ruled out: the slot of another request; one past the requests in use.
pub fn request_slot(t: &[u32], q: u32) -> Option<usize>
    requires { IsTables t.now }
    ensures within { Within (requests_in t.now) result }
    ensures found { FindsRequest t.now q result }
{
    let count = requests_in(t);
    search(&t[Q_NUMBER..Q_PORT], count, q)
}

// The slot of the newest request on the port whose client end is c.
// Ruled out: an older request on that port; nothing where one is open.
pub fn open_on(t: &[u32], c: u32) -> Option<usize>
    requires { IsTables t.now }
    ensures within { Within (requests_in t.now) result }
    ensures found { FindsOpen t.now c result }
{
    let count = requests_in(t);
    search_back(&t[Q_PORT..Q_ASKER], count, c)
}
