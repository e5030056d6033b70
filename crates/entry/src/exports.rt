// The entry points as C calls them (crate entry_c): each run and each text a slice of any length.
ghost use Rattle.text.specs.Entry.{open_entry, call_entry};
ghost use Rattle.entry.specs.vocabulary.Entries.{Exports, ExportsLines, ExportsJoin};

use crate::{calling, opening};
use joining::JOINED;
use joining::answers::join_texts;
use page::lines::write_lines;
use rows::layout::TABLES;
use text::REPLY;
use text::replies::hand_out;

// Lengths are numbers, 0 where there is no room: what C takes.
// An opening text. With fewer than 256 bytes lent for the reply nothing is touched, and the length is 0.
// Ruled out: a reply one byte short; a word changed where the reply has no room.
pub fn tablet_open(
    tables: &mut [u32],
    processes: &mut [u32],
    text: &[u8],
    reply: &mut [u8],
) -> usize
    ensures { Exports (open_entry tables.old processes.old text.now)
        tables.old processes.old reply.old
        tables.new processes.new reply.new result }
{
    if reply.len() < REPLY {
        return 0;
    }
    let r = opening::open(tables, processes, text);
    hand_out(r, reply)
}

// As tablet_open, with another entry point: each is an exported name.
// A call line. With fewer than 256 bytes lent for the reply nothing is touched, and the length is 0.
// Ruled out: the reply of another call; bytes after the reply that change.
pub fn tablet_call(
    tables: &mut [u32],
    processes: &mut [u32],
    line: &[u8],
    reply: &mut [u8],
) -> usize
    ensures { Exports (call_entry tables.old processes.old line.now)
        tables.old processes.old reply.old
        tables.new processes.new reply.new result }
{
    if reply.len() < REPLY {
        return 0;
    }
    let r = calling::call(tables, processes, line);
    hand_out(r, reply)
}

// The holders' page from the row at slot `from` on, whatever the tables hold: as many whole lines as `page` has room
// for. It gives their bytes, 0 where no row is left; in tables of another length no row stands.
// Ruled out: a part of a line; a page of tables that are one word short.
pub fn tablet_page(tables: &[u32], from: usize, page: &mut [u8]) -> usize
    ensures { ExportsLines tables.now from page.old page.new result }
{
    if tables.len() != TABLES {
        return 0;
    }
    write_lines(tables, from, page)
}

// Two opening texts, one after the other: what the program join prints of them. With fewer than 24,832 bytes lent for
// it nothing is touched, and the length is 0.
// Ruled out: a joined text that is cut; a byte changed where it has no room.
pub fn tablet_join(texts: &[u8], out: &mut [u8]) -> usize
    ensures { ExportsJoin texts.now out.old out.new result }
{
    if out.len() < JOINED {
        return 0;
    }
    join_texts(texts, out)
}
