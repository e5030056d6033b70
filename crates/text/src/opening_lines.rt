// The lines of an opening text: where they end, and what each is (specs/Opening.antt).
ghost use Rattle.std.specs.Prelude.{◌≡◌, ◌+◌, ◌≤◌, length, drop};
ghost use Rattle.text.specs.Patterns.{form};
ghost use Rattle.text.specs.Opening.{entries_from, entry_ranged, node_line, line_of, open_line, bad_line};
ghost use Rattle.text.specs.vocabulary.Sizes.{GROUPS};
ghost use Rattle.text.specs.vocabulary.Openings.{first_line, entry_read, entries_read, other_line, line_read};
ghost use Rattle.text.specs.vocabulary.Openings.{JudgesNode};

use crate::call_line::{GROUPS, LONGEST_LINE, is_process};
use crate::patterns::{ends_at, is_whole, read_form};
use crate::{EntriesRead, Entry, LineRead, Read, Reader};
use rows::codes::{A_SUBDIRECTORY, ALL_RIGHTS, AN_OPERATION, LAST_OPERATION, is_node};
use rows::find::before_first;

// ---- lines
// The position after the line that begins at a position, its line feed with it.
// Ruled out: the position of the line feed; the end of the text where a line feed comes before it.
pub fn line_end(text: &[u8], at: usize) -> usize
    requires { at ≤ length text.now }
    ensures ends { result ≡ at + first_line (drop at text.now) }
    ensures within { result ≤ length text.now }
{
    let feed = at + before_first(&text[at..], &b'\n');
    if feed < text.len() {
        return feed + 1;
    }
    feed
}

// ---- entries
// The entry at a position, `(op 2 5 7)` or `(dir 2 3)` after a space, and the position after it.
// Ruled out: an operation for a `dir`; an entry where the bracket does not close.
pub fn entry_at(line: &[u8], at: usize) -> Option<(Entry, usize)>
    ensures { result ≡ entry_read line.now at }
{
    let o = read_form(line, at, b" (op # # #)");
    if o.good {
        let entry = Entry {
            kind: AN_OPERATION,
            object: o.a,
            operation: o.b,
            rights: o.c,
        };
        return Some((entry, o.next));
    }
    let d = read_form(line, at, b" (dir # #)");
    if d.good {
        let entry = Entry {
            kind: A_SUBDIRECTORY,
            object: d.b,
            operation: 0,
            rights: d.c,
        };
        return Some((entry, d.next));
    }
    None
}

// Whether an entry's numbers are in range.
fn entry_ranged(e: Entry) -> bool
    ensures { result ≡ entry_ranged e }
{
    let good = e.rights <= ALL_RIGHTS;
    if e.kind == AN_OPERATION {
        return good & (is_process(e.object) & (e.operation <= LAST_OPERATION));
    }
    good & is_node(e.object)
}

// The entries from a position on. A record with `ranged`: a fact of all entries, with no value that depends on it.
fn entries_at(line: &[u8], at: usize) -> EntriesRead
    ensures { result ≡ entries_read (entries_from GROUPS line.now at) }
{
    let mut r = EntriesRead {
        next: at,
        count: 0,
        ranged: true,
    };
    for n in 0..GROUPS {
        let Some((entry, next)) = entry_at(line, r.next) else {
            return r;
        };
        r = EntriesRead {
            next,
            count: n + 1,
            ranged: r.ranged & entry_ranged(entry),
        };
    }
    r
}

// ---- a line
// `(open)`, else a bad line.
fn last_form(line: &[u8]) -> LineRead
    ensures { result ≡ line_read (open_line line.now bad_line) }
{
    let f = read_form(line, 0, b"(open)\n");
    if is_whole(line, f) {
        return LineRead::Last;
    }
    LineRead::Bad
}

// `(process p n)`, else another form.
fn process_form(line: &[u8]) -> LineRead
    ensures { result ≡ line_read (other_line line.now) }
{
    let f = read_form(line, 0, b"(process # #)\n");
    if is_whole(line, f) {
        return LineRead::Process(f.b, f.c);
    }
    last_form(line)
}

// The head of a node form at a position: its node.
fn node_head(line: &[u8], at: usize) -> Read
    ensures { result ≡ form line.now at "(node #" }
{
    read_form(line, at, b"(node #")
}

// Head and entries read as a node form if the line ends after them, else as another form.
fn node_if_ended(line: &[u8], f: Read, es: EntriesRead, ended: bool) -> LineRead
    ensures { JudgesNode line.now f es ended result }
{
    if f.good & ended {
        return LineRead::Node(f.c, es.count, es.ranged);
    }
    process_form(line)
}

// The reader goes on step by step here and in groups_form: what it reads in each step differs.
// `(node n ENTRY ..)`, else another form: head, entries and end, one after the other.
fn node_form(line: &[u8]) -> LineRead
    ensures { result ≡ line_read (node_line line.now (other_line line.now)) }
{
    let mut r = Reader { line, at: 0 };
    let f = node_head(r.line, r.at);
    r.at = f.next;
    let es = entries_at(r.line, r.at);
    r.at = es.next;
    let ended = ends_at(r.line, r.at);
    node_if_ended(r.line, f, es, ended)
}

// What a line is: a node form, a process form, `(open)`, or bad.
// Ruled out: `(open)` without its line feed; a form in a line of more than 255 bytes.
pub fn read_line(line: &[u8]) -> LineRead
    ensures { result ≡ line_read (line_of line.now) }
{
    if LONGEST_LINE < line.len() {
        return LineRead::Bad;
    }
    node_form(line)
}
