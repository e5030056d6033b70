// The second pass over an opening text, whose lines are good: 5, and rows and records written into the lent words as
// they are read. A refused text leaves empty tables.
ghost use Rattle.std.specs.Prelude.{◌≡◌, List, ◌+◌, ◌≤◌, None, length, replicate};
ghost use Rattle.rows.specs.Tables.{empty};
ghost use Rattle.rows.specs.Layout.{words_of};
ghost use Rattle.rows.specs.vocabulary.Sizes.{ROWS, PROCESSES, IsTables, IsRecords};
ghost use Rattle.text.specs.Opening.{Form, lines_of, line_of, entry_listed, opening_of, entry_row};
ghost use Rattle.text.specs.vocabulary.Openings.{Gives, entries_here, other_line, NamesEntries, NamesLine};
ghost use Rattle.text.specs.vocabulary.Openings.{Misses, verdict_of};
ghost use Rattle.text.specs.vocabulary.Written.{BothRepresent, WritesEntries, SetsRecord, LineFits};
ghost use Rattle.text.specs.vocabulary.Written.{WritesRecord, WritesLine, PassedTo, FormsWritten, OpeningWritten};

use crate::call_line::GROUPS;
use crate::opening_lines::{entry_at, line_end};
use crate::opening_text::{first_pass, is_given};
use crate::patterns::{is_whole, read_form};
use crate::{Entry, Given, Naming, Refused};
use calls::Refusal;
use changes::change;
use rows::Row;
use rows::codes::AN_OPERATION;
use rows::layout::RECORD_WORDS;

// ---- empty tables
// Every word becomes 0. Ruled out: a word is left as it was; the first word stays.
pub fn clear(run: &mut [u32])
    ensures { run.new ≡ replicate (length run.old) 0 }
{
    run.fill(0);
}

// Tables with nothing in them and next number 1. Ruled out: a row is left; next number 0.
pub fn clear_tables(t: &mut [u32])
    requires { IsTables t.old }
    ensures { t.new ≡ words_of empty }
{
    clear(t);
    change::set_next(t, 1);
}

// ---- entries and records
// Whether the process or node that an entry names is given.
fn entry_listed(g: Given, e: Entry) -> bool
    ensures { (fs : List Form) → Gives g fs → result ≡ entry_listed fs e }
{
    if e.kind == AN_OPERATION {
        let processes = g.processes;
        return is_given(&processes, e.object);
    }
    let nodes = g.nodes;
    is_given(&nodes, e.object)
}

// The row of an entry: it has no source, and depth 1.
fn entry_row(number: u32, node: u32, e: Entry) -> Row
    ensures { result ≡ entry_row number node e }
{
    Row {
        number,
        kind: e.kind,
        object: e.object,
        operation: e.operation,
        rights: e.rights,
        place: node,
        source: 0,
        via: 0,
        depth: 1,
        request: 0,
    }
}

// Writes the rows of the entries from a position on after the rows that stand, as long as what they name is given. The
// number of a row is that of its slot plus 1.
fn write_entries(t: &mut [u32], line: &[u8], at: usize, g: Given, node: u32, rows: usize) -> Naming
    requires { IsTables t.old × (rows + length (entries_here line.now at) ≤ ROWS) }
    ensures named { NamesEntries g line.now at rows result }
    ensures written { WritesEntries t.old t.new line.now at node rows result }
    ensures long { IsTables t.new }
{
    let mut i = at;
    let mut n = rows;
    for k in 0..GROUPS {
        let Some((entry, next)) = entry_at(line, i) else {
            return Naming::Listed(n);
        };
        if !entry_listed(g, entry) {
            return Naming::Missing;
        }
        let row = entry_row((n + 1) as u32, node, entry);
        change::append_row(t, n, row);
        i = next;
        n += 1;
    }
    Naming::Listed(n)
}

// Writes the record of a process: it is in its prime node, through none.
fn write_record(p: &mut [u32], q: u32, node: u32)
    requires { IsRecords p.old × (1 ≤ q) × (q ≤ PROCESSES) }
    ensures set { SetsRecord p.old p.new q node }
    ensures long { IsRecords p.new }
{
    let i = (q - 1) as usize;
    let at = RECORD_WORDS * i;
    p[at] = node;
    p[at + 1] = node;
    p[at + 2] = 0;
}

// ---- lines
// Writes a process form whose node is given; `(open)` ends the pass.
fn write_process(p: &mut [u32], line: &[u8], g: Given, rows: usize) -> Naming
    requires { IsRecords p.old × LineFits rows (other_line line.now) }
    ensures named { NamesLine g rows (other_line line.now) result }
    ensures written { WritesRecord p.old p.new rows (other_line line.now) result }
    ensures long { IsRecords p.new }
{
    let f = read_form(line, 0, b"(process # #)\n");
    if !is_whole(line, f) {
        return Naming::Ended;
    }
    let nodes = g.nodes;
    if !is_given(&nodes, f.c) {
        return Naming::Missing;
    }
    write_record(p, f.b, f.c);
    Naming::Listed(rows)
}

// Writes a line that the first pass took, if what it names is given; `(open)` ends the pass.
fn write_line(t: &mut [u32], p: &mut [u32], line: &[u8], g: Given, rows: usize) -> Naming
    requires sizes { IsTables t.old × IsRecords p.old }
    requires fits { LineFits rows (line_of line.now) }
    ensures named { NamesLine g rows (line_of line.now) result }
    ensures written { WritesLine t.old p.old t.new p.new
        rows (line_of line.now) result }
    ensures long { IsTables t.new × IsRecords p.new }
{
    let f = read_form(line, 0, b"(node #");
    if f.good {
        let at = f.next;
        return write_entries(t, line, at, g, f.c, rows);
    }
    write_process(p, line, g, rows)
}

// The second pass: writes the forms of a text that the first pass read to `(open)`. The first line that names what is
// not given; for none all is written.
fn write_forms(t: &mut [u32], p: &mut [u32], text: &[u8], g: Given) -> Option<usize>
    requires sizes { IsTables t.old × IsRecords p.old }
    requires empty { BothRepresent t.old p.old empty }
    requires passed { PassedTo text.now g }
    ensures missing { Misses g text.now result }
    ensures written { result ≡ None → FormsWritten text.now t.new p.new }
    ensures long { IsTables t.new × IsRecords p.new }
{
    let mut at = 0;
    let mut n = 1;
    let mut rows = 0;
    // a while: at goes on by a whole line
    while at < text.len() {
        let e = line_end(text, at);
        let named = write_line(t, p, &text[at..e], g, rows);
        match named {
            Naming::Listed(m) => {
                rows = m;
                at = e;
                n += 1;
            }
            Naming::Missing => {
                return Some(n);
            }
            Naming::Ended => {
                change::set_next(t, (rows + 1) as u32);
                return None;
            }
        }
    }
    None
}

// ---- the opening
// Reads an opening text of any bytes into empty tables: it is accepted and written, or refused with a number at a line,
// and the tables are left empty.
// Ruled out: 5 at a line before one with 2, 3, 4 or 6; rows of a text that is refused for its last line.
pub fn read_opening(t: &mut [u32], p: &mut [u32], text: &[u8]) -> Result<(), Refused>
    requires sizes { IsTables t.old × IsRecords p.old }
    requires empty { BothRepresent t.old p.old empty }
    ensures verdict { result ≡ verdict_of (opening_of (lines_of text.now)) }
    ensures written { OpeningWritten text.now t.new p.new }
{
    let given = first_pass(text)?;
    if let Some(line) = write_forms(t, p, text, given) {
        clear_tables(t);
        clear(p);
        return Err(Refused {
            number: Refusal::NotListed.into(),
            line,
        });
    }
    Ok(())
}
