// The entry points under the names that C calls: each run and each text as a pointer and a length.
ghost use Rattle.text.specs.Entry.{open_entry, call_entry};
ghost use Rattle.entry.specs.vocabulary.Entries.{Exports, ExportsLines, ExportsJoin};

use entry::exports;

// An opening text. With fewer than 256 bytes lent for the reply nothing is touched, and the length is 0.
// Ruled out: a reply one byte short; a word changed where the reply has no room.
#[unsafe(no_mangle)]
pub extern "C" fn tablet_open(
    tables: &mut [u32],
    processes: &mut [u32],
    text: &[u8],
    reply: &mut [u8],
) -> usize
    ensures { Exports (open_entry tables.old processes.old text.now)
        tables.old processes.old reply.old
        tables.new processes.new reply.new result }
{
    exports::tablet_open(tables, processes, text, reply)
}

// A call line. With fewer than 256 bytes lent for the reply nothing is touched, and the length is 0.
// Ruled out: the reply of another call; bytes after the reply that change.
#[unsafe(no_mangle)]
pub extern "C" fn tablet_call(
    tables: &mut [u32],
    processes: &mut [u32],
    line: &[u8],
    reply: &mut [u8],
) -> usize
    ensures { Exports (call_entry tables.old processes.old line.now)
        tables.old processes.old reply.old
        tables.new processes.new reply.new result }
{
    exports::tablet_call(tables, processes, line, reply)
}

// The holders' page from the row at slot `from` on, whatever the tables hold: as many whole lines as `page` has room
// for. It gives their bytes, 0 where no row is left; in tables of another length no row stands.
// Ruled out: a part of a line; a page of tables that are one word short.
#[unsafe(no_mangle)]
pub extern "C" fn tablet_page(tables: &[u32], from: usize, page: &mut [u8]) -> usize
    ensures { ExportsLines tables.now from page.old page.new result }
{
    exports::tablet_page(tables, from, page)
}

// Two opening texts, one after the other: what the program join prints of them. With fewer than 24,832 bytes lent for
// it nothing is touched, and the length is 0.
// Ruled out: a joined text that is cut; a byte changed where it has no room.
#[unsafe(no_mangle)]
pub extern "C" fn tablet_join(texts: &[u8], out: &mut [u8]) -> usize
    ensures { ExportsJoin texts.now out.old out.new result }
{
    exports::tablet_join(texts, out)
}
