// The program holders: reads a session as tablet does, and prints the holders' page of its end in place of the answers.

#![tactic(auto)]

ghost use Rattle.std.specs.Prelude.{◌≤◌, length};
ghost use Rattle.rows.specs.vocabulary.Sizes.{IsTables};
ghost use Rattle.page.specs.vocabulary.Columns.{LINE};

use feed::KEPT;
use page::LINE;
use page::lines::write_lines;
use rows::find::rows_in;
use rows::layout::{RECORDS, TABLES};
use std::io;
use std::io::Write;
use stdio::sessions::{run, write_out};
use stdio::{Error, PART};

// Writes the page, as many lines at once as `out` has room for: a page may be longer.
fn print_page<W: Write>(writer: &mut W, tables: &[u32], out: &mut [u8]) -> Result<(), Error>
    requires { IsTables tables.now × (LINE ≤ length out.old) }
{
    let rows = rows_in(tables);
    let mut from = 0;
    // a while: from goes on by as many lines as had room
    while from < rows {
        let n = write_lines(tables, from, out);
        write_out(writer, out, n)?;
        from += n / LINE;
    }
    Ok(())
}

fn main(rt: HostRuntime) {
    let mut tables = [0u32; TABLES];
    let mut processes = [0u32; RECORDS];
    let mut kept = [0u8; KEPT];
    let mut part = [0u8; PART];
    let mut out = [0u8; PART];
    let page = run(
        &mut rt.stdin(),
        &mut io::sink(),
        &mut tables,
        &mut processes,
        &mut kept,
        &mut part,
        &mut out,
    )
    .and_then(|()| print_page(&mut rt.stdout(), &tables, &mut out));
    if let Err(e) = page {
        let _ = eprintln!(rt; "holders: {e}");
    }
}
