// Changes of the tables in place. Where the words have another length, or a slot or word does not fit, nothing changes.
ghost use Rattle.std.specs.Prelude.{◌≡◌, ◌<◌, ◌≤◌};
ghost use Rattle.rows.specs.Setters.{with_place};
ghost use Rattle.rows.specs.vocabulary.Sizes.{ROWS, REQUESTS, ITEMS, IsTables};
ghost use Rattle.changes.specs.vocabulary.Bits.{marks_in};
ghost use Rattle.changes.specs.vocabulary.Changes.{ChangesRow, ChangesRequest, SetsNext, RemovesRows, RemovesRequests};
ghost use Rattle.changes.specs.vocabulary.Changes.{item_cleared, as_fetched};
ghost use Rattle.test_exports.specs.vocabulary.Exports.{row_of_words, request_of_words, Unless, ItemFits, RowFits};
ghost use Rattle.test_exports.specs.vocabulary.Exports.{AddsRowOf, AddsRequestOf};

use changes::bits::SlotBits;
use changes::{bits, change, remove};
use rows::layout::{ITEMS, REQUEST_COLUMNS, REQUESTS, ROW_COLUMNS, ROWS, RequestMarks, TABLES};
use rows::{Request, Row};

#[unsafe(no_mangle)]
pub extern "C" fn kernel_set_place(t: &mut [u32], i: usize, place: u32)
    ensures represents { ChangesRow t.old t.new i (with_place place) }
    ensures other { Unless (IsTables t.old × (i < ROWS)) (t.new ≡ t.old) }
{
    if t.len() != TABLES {
        return;
    }
    if ROWS <= i {
        return;
    }
    change::set_place(t, i, place);
}

#[unsafe(no_mangle)]
pub extern "C" fn kernel_clear_item(t: &mut [u32], j: usize, k: usize)
    ensures represents { k < ITEMS → ChangesRequest t.old t.new j (item_cleared k) }
    ensures other { Unless (ItemFits t.old j k) (t.new ≡ t.old) }
{
    if t.len() != TABLES {
        return;
    }
    if REQUESTS <= j {
        return;
    }
    if ITEMS <= k {
        return;
    }
    change::clear_item(t, j, k);
}

#[unsafe(no_mangle)]
pub extern "C" fn kernel_set_fetched(t: &mut [u32], j: usize)
    ensures represents { ChangesRequest t.old t.new j as_fetched }
    ensures other { Unless (IsTables t.old × (j < REQUESTS)) (t.new ≡ t.old) }
{
    if t.len() != TABLES {
        return;
    }
    if REQUESTS <= j {
        return;
    }
    change::set_fetched(t, j);
}

#[unsafe(no_mangle)]
pub extern "C" fn kernel_set_next(t: &mut [u32], n: u32)
    ensures represents { SetsNext t.old t.new n }
    ensures other { Unless (IsTables t.old) (t.new ≡ t.old) }
{
    if t.len() != TABLES {
        return;
    }
    change::set_next(t, n);
}

// The row of its words.
fn row_of(w: &[u32; ROW_COLUMNS]) -> Row
    ensures { result ≡ row_of_words w.now }
{
    Row {
        number: w[0],
        kind: w[1],
        object: w[2],
        operation: w[3],
        rights: w[4],
        place: w[5],
        source: w[6],
        via: w[7],
        depth: w[8],
        request: w[9],
    }
}

// The row is given by the words of its columns.
#[unsafe(no_mangle)]
pub extern "C" fn kernel_append_row(t: &mut [u32], count: usize, w: &[u32; ROW_COLUMNS])
    ensures represents { AddsRowOf t.old t.new count w.now }
    ensures other { Unless (RowFits t.old count w.now) (t.new ≡ t.old) }
{
    if t.len() != TABLES {
        return;
    }
    if ROWS <= count {
        return;
    }
    let row = row_of(w);
    if count < row.source as usize {
        return;
    }
    if count < row.via as usize {
        return;
    }
    change::append_row(t, count, row);
}

// The request of its words.
fn request_of(w: &[u32; REQUEST_COLUMNS]) -> Request
    ensures { result ≡ request_of_words w.now }
{
    let items = [w[4], w[5], w[6], w[7]];
    Request {
        number: w[0],
        port: w[1],
        asker: w[2],
        fetched: w[3],
        items: items,
    }
}

// The request is given by the words of its columns.
#[unsafe(no_mangle)]
pub extern "C" fn kernel_append_request(t: &mut [u32], count: usize, w: &[u32; REQUEST_COLUMNS])
    ensures represents { AddsRequestOf t.old t.new count w.now }
    ensures other { Unless (IsTables t.old × (count < REQUESTS)) (t.new ≡ t.old) }
{
    if t.len() != TABLES {
        return;
    }
    if REQUESTS <= count {
        return;
    }
    let request = request_of(w);
    change::append_request(t, count, request);
}

#[unsafe(no_mangle)]
pub extern "C" fn kernel_remove_rows(t: &mut [u32], count: usize, marks: &SlotBits)
    ensures represents { RemovesRows t.old t.new count (marks_in marks.now) }
    ensures other { Unless (IsTables t.old × (count ≤ ROWS)) (t.new ≡ t.old) }
{
    if t.len() != TABLES {
        return;
    }
    if ROWS < count {
        return;
    }
    let gone = bits::count(marks, count);
    remove::remove_rows(t, count, gone, marks);
}

#[unsafe(no_mangle)]
pub extern "C" fn kernel_remove_requests(t: &mut [u32], marks: &RequestMarks)
    ensures represents { RemovesRequests t.old t.new marks.now }
    ensures other { Unless (IsTables t.old) (t.new ≡ t.old) }
{
    if t.len() != TABLES {
        return;
    }
    remove::remove_requests(t, marks);
}
