// Look-ups that the calls share.
// Rows and requests are counted once a call, n rows, m requests, and the counts handed on: counting again would be
// slower, and a struct that borrows the words could not lend them on to a function that changes them.
// Kinds, places and sources are numbers, as the lent words have them, which may hold any. A source word is a slot plus
// 1, 0 for none: so it stands in the words, and so the definitions read it.
ghost use Rattle.std.specs.Prelude.{◌≤◌, ◌<◌};
ghost use Rattle.rows.specs.vocabulary.Slots.{Within};
ghost use Rattle.rows.specs.vocabulary.Sizes.{ROWS, REQUESTS, IsTables};
ghost use Rattle.calls.specs.vocabulary.Lookups.{FindsIn, FindsHeld, FindsRequestAmong, FindsOpenAmong, IsWord};
ghost use Rattle.calls.specs.vocabulary.Lookups.{IsSourceWord, IsDepth, IsDepthOver};
ghost use Rattle.calls.specs.vocabulary.Performs.{FindsAsked};

use rows::codes::{GREATEST_DEPTH, clist};
use rows::find;
use rows::layout::{DEPTH, OBJECT, PLACE, Q_ASKER, Q_NUMBER, Q_PORT, SOURCE};

// The slot of the row e, where it is in the place: a c-list, or a node.
// Ruled out: the slot of a row that is in another place; nothing for a row that is there.
pub fn row_in(t: &[u32], n: usize, place: u32, e: u32) -> Option<usize>
    requires { IsTables t.now × (n ≤ ROWS) }
    ensures within { Within n result }
    ensures found { FindsIn t.now n place e result }
{
    let Some(i) = find::row_among(t, n, e) else {
        return None;
    };
    if t[PLACE + i] == place {
        return Some(i);
    }
    None
}

// The slot of the row e, where it is in the c-list of p.
// Ruled out: the slot of a row that another process holds; nothing for a row that p holds.
pub fn held_by(t: &[u32], n: usize, p: u32, e: u32) -> Option<usize>
    requires { IsTables t.now × (n ≤ ROWS) }
    ensures within { Within n result }
    ensures found { FindsHeld t.now n p e result }
{
    let place = clist(p);
    row_in(t, n, place, e)
}

// The slot of the request q.
// Ruled out: the slot of another request; one at or past the count.
pub fn request_among(t: &[u32], m: usize, q: u32) -> Option<usize>
    requires { IsTables t.now × (m ≤ REQUESTS) }
    ensures within { Within m result }
    ensures found { FindsRequestAmong t.now m q result }
{
    find::search(&t[Q_NUMBER..Q_PORT], m, q)
}

// The slot of the newest request on the port whose client end is c.
// Ruled out: an older request on that port; nothing where one is open.
pub fn open_among(t: &[u32], m: usize, c: u32) -> Option<usize>
    requires { IsTables t.now × (m ≤ REQUESTS) }
    ensures within { Within m result }
    ensures found { FindsOpenAmong t.now m c result }
{
    find::search_back(&t[Q_PORT..Q_ASKER], m, c)
}

// The slot of the request that the server sees at its end, which stands in slot i.
// Ruled out: the request on the port whose number is that of the end; a request that lists the end.
pub fn asked_at(t: &[u32], m: usize, i: usize) -> Option<usize>
    requires { IsTables t.now × (m ≤ REQUESTS) × (i < ROWS) }
    ensures within { Within m result }
    ensures found { FindsAsked t.now m i result }
{
    open_among(t, m, t[OBJECT + i])
}

// The row e as a source word: its slot plus 1, 0 where there is none.
// Ruled out: its number; its slot, which is 0 for the oldest row.
pub fn row_word(t: &[u32], n: usize, e: u32) -> u32
    requires { IsTables t.now × (n ≤ ROWS) }
    ensures within { result ≤ n }
    ensures word { IsWord t.now n e result }
{
    // a let .. else, as of every look-up
    let Some(i) = find::row_among(t, n, e) else {
        return 0;
    };
    (i + 1) as u32
}

// The first source of the row in slot i, as a source word; 0 for a word that is no slot of a row.
// Ruled out: the second source; the row's own slot.
pub fn source_word(t: &[u32], n: usize, i: usize) -> u32
    requires { IsTables t.now × (i < n) × (n ≤ ROWS) }
    ensures within { result ≤ n }
    ensures word { IsSourceWord t.now n i result }
{
    let s = t[SOURCE + i];
    if n < s as usize {
        return 0;
    }
    s
}

// The depth of the row at a source word, 0 where there is none.
fn depth_at(t: &[u32], s: u32) -> u32
    requires { IsTables t.now × (s ≤ ROWS) }
    ensures { IsDepth t.now s result }
{
    if s == 0 {
        return 0;
    }
    let i = s as usize - 1;
    t[DEPTH + i]
}

// The depth of a row whose sources are at two source words: at most 13, which is too deep.
// Ruled out: the depth of the first source alone; the greatest depth itself.
pub fn depth_over(t: &[u32], s: u32, v: u32) -> u32
    requires { IsTables t.now × (s ≤ ROWS) × (v ≤ ROWS) }
    ensures { IsDepthOver t.now s v result }
{
    let deeper = depth_at(t, s).max(depth_at(t, v));
    deeper.min(GREATEST_DEPTH) + 1
}
