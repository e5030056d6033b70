// The first stage of `sound`: numbers rise, sources stand before their rows, unused slots are 0. Every word is looked
// at, with no way out early, so that the loops run over many words at once.
// t is lent and n or m is counted once a call; a struct of both would be named in each clause, and is no plainer.
ghost use Rattle.std.specs.Prelude.{◌+◌, ◌*◌, ◌≤◌, length};
ghost use Rattle.rows.specs.vocabulary.Sizes.{ROWS, REQUESTS, IsTables};
ghost use Rattle.soundness.specs.vocabulary.Laid.{Decides, Rising, Older, ZeroFrom, RowsUnused, RequestsUnused};
ghost use Rattle.soundness.specs.vocabulary.Laid.{ColumnsUnused, RowsLaid, RequestsLaid};

use rows::layout::{
    DEPTH, KIND, NUMBER, Q_NUMBER, Q_PORT, REQUEST_COLUMNS, REQUESTS, ROW_COLUMNS, ROWS, SOURCE,
    VIA,
};

// Whether the words of a column from position k on are 0: whether all their bits together are.
// Ruled out: yes where the last word is not 0; no for what stands before position k.
// By index, since k may be past the end; .skip(k) with .all or .fold takes 6 to 9 times the instructions.
pub fn zero_from(column: &[u32], k: usize) -> bool
    ensures { Decides result (ZeroFrom k column.now) }
{
    let mut bits: u32 = 0;
    for i in k..column.len() {
        bits = bits | column[i];
    }
    bits == 0
}

// Whether the first k words of a column rise, from above 0.
// Ruled out: yes where two words are the same; yes where the first is 0.
pub fn rising(column: &[u32], k: usize) -> bool
    requires { k ≤ length column.now }
    ensures { Decides result (Rising k column.now) }
{
    let mut rise = true;
    let mut last: u32 = 0;
    for &n in &column[..k] {
        rise = rise & (last < n);
        last = n;
    }
    rise
}

// Whether each of the first k words of a column of sources is 0 or the slot of an older row, plus 1.
// Ruled out: yes where a row is its own source; no where it comes from the row just before it.
// By index: .enumerate() takes 2.5 times the instructions, .zip(1u32..).all 6 times.
pub fn older(column: &[u32], k: usize) -> bool
    requires { (k ≤ length column.now) × (k ≤ ROWS) }
    ensures { Decides result (Older k column.now) }
{
    let mut old = true;
    for i in 0..k {
        old = old & (column[i] <= i as u32);
    }
    old
}

// Whether the slots from k on are 0 in each of so many columns of one size, which stand one after another from `start`
// on. Ruled out: yes where a word of the last column is left; no for a word before slot k.
fn columns_unused(t: &[u32], start: usize, size: usize, columns: usize, k: usize) -> bool
    requires { start + columns * size ≤ length t.now }
    ensures { Decides result (ColumnsUnused t.now start size columns k) }
{
    let mut unused = true;
    for c in 0..columns {
        let from = start + c * size;
        unused = unused & zero_from(&t[from..from + size], k);
    }
    unused
}

// Whether the slots from n on are 0 in each column of rows.
// Ruled out: yes where a word of one column alone is left; no for the row at slot n - 1.
pub fn rows_unused(t: &[u32], n: usize) -> bool
    requires { IsTables t.now }
    ensures { Decides result (RowsUnused t.now n) }
{
    columns_unused(t, NUMBER, ROWS, ROW_COLUMNS, n)
}

// Whether the slots from m on are 0 in each column of requests.
// Ruled out: yes where an item is left in a slot; no for the next number, which follows the columns.
pub fn requests_unused(t: &[u32], m: usize) -> bool
    requires { IsTables t.now }
    ensures { Decides result (RequestsUnused t.now m) }
{
    columns_unused(t, Q_NUMBER, REQUESTS, REQUEST_COLUMNS, m)
}

// Two functions, not one: rows have two columns of sources, requests have none.
// Whether n rows stand in the first slots, as a state lays them out.
// Ruled out: yes where a source is not older than its row; yes where two numbers fall.
pub fn rows_laid(t: &[u32], n: usize) -> bool
    requires { IsTables t.now × (n ≤ ROWS) }
    ensures { Decides result (RowsLaid t.now n) }
{
    let numbers = rising(&t[NUMBER..KIND], n);
    let sources = older(&t[SOURCE..VIA], n);
    let vias = older(&t[VIA..DEPTH], n);
    let unused = rows_unused(t, n);
    numbers & (sources & (vias & unused))
}

// Whether m requests stand in the first slots, as a state lays them out.
// Ruled out: yes where two requests have one number; yes where a slot after them is in use.
pub fn requests_laid(t: &[u32], m: usize) -> bool
    requires { IsTables t.now × (m ≤ REQUESTS) }
    ensures { Decides result (RequestsLaid t.now m) }
{
    let numbers = rising(&t[Q_NUMBER..Q_PORT], m);
    let unused = requests_unused(t, m);
    numbers & unused
}
