// A row's line, and the lines of a page one after the other (specs/Page.antt).
ghost use Rattle.std.specs.Prelude.{◌≡◌, ◌++◌, ◌<◌, length};
ghost use Rattle.rows.specs.Layout.{raw_row};
ghost use Rattle.rows.specs.vocabulary.Sizes.{ROWS, IsTables};
ghost use Rattle.text.specs.Answers.{digits_of};
ghost use Rattle.page.specs.Page.{shown, spaces, left_in, kind_text, place_text, line_of};
ghost use Rattle.page.specs.vocabulary.Columns.{WIDTH, PLACE-COLUMNS, Named, WritesLines};

use crate::columns::{put_left, put_right};
use crate::{LINE, Shown, WIDTH};
use rows::codes::{
    A_CLIENT_END, A_SERVER_END, A_SUBDIRECTORY, AN_OPERATION, BEFORE_CLISTS, THE_SYSTEM, is_clist,
    is_node,
};
use rows::find::rows_in;
use rows::read::row_at;

// where the columns of a line begin and end: number, kind, place, rights, depth
const NUMBER_AT: usize = 0;

const NUMBER_END: usize = 10;

const KIND_AT: usize = 11;

const KIND_END: usize = 17;

const PLACE_AT: usize = 18;

const PLACE_END: usize = 26;

const RIGHTS_AT: usize = 27;

const RIGHTS_END: usize = 29;

const DEPTH_AT: usize = 30;

const DEPTH_END: usize = 32;

// in the columns of a place: where its number begins, and ends if it has one digit, two
const NAME_END: usize = 5;

const ONE_DIGIT_END: usize = 6;

const TWO_DIGITS_END: usize = 7;

// ---- a field
// The kind of a row; what is none leaves spaces.
// Ruled out: the word of another kind; a word cut short.
fn put_kind(columns: &mut [u8], kind: u32)
    ensures { columns.new ≡ left_in (length columns.old) (kind_text kind) }
{
    match kind {
        AN_OPERATION => put_left(columns, b"op"),
        A_SUBDIRECTORY => put_left(columns, b"dir"),
        A_CLIENT_END => put_left(columns, b"client"),
        A_SERVER_END => put_left(columns, b"server"),
        _ => put_left(columns, b""),
    }
}

// A name of five bytes and a number of one digit or two, from the first column on.
// Ruled out: the first digit of two alone; a space before a number of one digit.
fn put_named(columns: &mut [u8], name: &[u8], n: u32)
    requires columns { length columns.old ≡ PLACE-COLUMNS }
    requires named { Named name.now n }
    ensures { columns.new ≡ left_in PLACE-COLUMNS (name.now ++ digits_of n) }
{
    put_left(columns, name);
    if n < 10 {
        put_right(&mut columns[NAME_END..ONE_DIGIT_END], n);
    } else {
        put_right(&mut columns[NAME_END..TWO_DIGITS_END], n);
    }
}

// The place of a row; what is none leaves spaces.
// Ruled out: the code of a c-list for its process; a node for a process.
fn put_place(columns: &mut [u8], place: u32)
    requires { length columns.old ≡ PLACE-COLUMNS }
    ensures { columns.new ≡ left_in PLACE-COLUMNS (place_text place) }
{
    if is_node(place) {
        return put_named(columns, b"node ", place);
    }
    if is_clist(place) {
        return put_named(columns, b"proc ", place - BEFORE_CLISTS);
    }
    if place == THE_SYSTEM {
        return put_left(columns, b"system");
    }
    put_left(columns, b"")
}

// ---- a line
// What the line of the row at slot i shows. Ruled out: a word of another column; a word of the next slot.
fn shown_at(t: &[u32], i: usize) -> Shown
    requires { IsTables t.now × (i < ROWS) }
    ensures { result ≡ shown (raw_row t.now i) }
{
    let r = row_at(t, i);
    Shown {
        number: r.number,
        kind: r.kind,
        place: r.place,
        rights: r.rights,
        depth: r.depth,
    }
}

// The five fields in a line of spaces, each in its columns.
fn put_fields(line: &mut [u8], s: Shown)
    requires { line.old ≡ spaces WIDTH }
    ensures { line.new ≡ line_of s }
{
    put_right(&mut line[NUMBER_AT..NUMBER_END], s.number);
    put_kind(&mut line[KIND_AT..KIND_END], s.kind);
    put_place(&mut line[PLACE_AT..PLACE_END], s.place);
    put_right(&mut line[RIGHTS_AT..RIGHTS_END], s.rights);
    put_right(&mut line[DEPTH_AT..DEPTH_END], s.depth);
}

// The line of the row at slot i, in the 64 bytes lent for it; the line feed is not among them.
// Ruled out: a byte that is left as it was; a field in the columns of another.
pub fn write_line(t: &[u32], i: usize, line: &mut [u8])
    requires slot { IsTables t.now × (i < ROWS) }
    requires wide { length line.old ≡ WIDTH }
    ensures { line.new ≡ line_of (shown (raw_row t.now i)) }
{
    put_left(line, b"");
    put_fields(line, shown_at(t, i));
}

// ---- a page
// The page from the row at slot `from` on, whatever the tables hold: as many whole lines as `out` has room for. It
// gives their bytes.
// Ruled out: a line without its line feed; a row left out or written twice; the newest row first.
pub fn write_lines(t: &[u32], from: usize, out: &mut [u8]) -> usize
    requires { IsTables t.now }
    ensures { WritesLines t.now from out.old out.new result }
{
    let rows = rows_in(t);
    let mut n = 0;
    // by position, not by chunks of LINE: the bytes written are counted, and those after them stay
    for i in from..rows {
        if out.len() - n < LINE {
            break;
        }
        write_line(t, i, &mut out[n..n + WIDTH]);
        out[n + WIDTH] = b'\n';
        n += LINE;
    }
    n
}
