// The entry point open: an opening text of any bytes into runs of any length.
ghost use Rattle.std.specs.Prelude.{◌≡◌};
ghost use Rattle.rows.specs.Layout.{cleared_tables, cleared_processes};
ghost use Rattle.text.specs.Entry.{open_entry};
ghost use Rattle.entry.specs.vocabulary.Entries.{Replies};

use rows::layout::{RECORDS, TABLES};
use text::Reply;
use text::opening_words::{clear, clear_tables, read_opening};
use text::replies::print_opening;

// Empty tables, in runs of any length. Ruled out: a word of a run of another length is left; next number 0.
fn clear_runs(tables: &mut [u32], processes: &mut [u32])
    ensures tables { tables.new ≡ cleared_tables tables.old }
    ensures processes { processes.new ≡ cleared_processes processes.old }
{
    clear(processes);
    if tables.len() == TABLES {
        clear_tables(tables);
    } else {
        clear(tables);
    }
}

// ---- the entry point
// Refusals are numbers here: what prints an opening's answer takes one, 0 for none, and 1 is at no line.
// An opening text of any bytes, whatever the words held.
// Ruled out: rows of a text that is refused; a row from before the opening; a run of another length not cleared.
pub fn open(tables: &mut [u32], processes: &mut [u32], text: &[u8]) -> Reply
    ensures { Replies (open_entry tables.old processes.old text.now) result
        tables.new processes.new }
{
    clear_runs(tables, processes);
    if tables.len() != TABLES {
        return print_opening(1, 0);
    }
    if processes.len() != RECORDS {
        return print_opening(1, 0);
    }
    match read_opening(tables, processes, text) {
        Ok(()) => print_opening(0, 0),
        Err(refused) => print_opening(refused.number, refused.line),
    }
}
