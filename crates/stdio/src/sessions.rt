// A session from a reader to a writer, the standard input and output of the programs: what is kept of the input, what
// is answered and when is decided in the crate feed.
ghost use Rattle.std.specs.Prelude.{◌≡◌, ◌≤◌, ◌<◌, length, take, OnOk, IfOk};
ghost use Rattle.std.specs.Io.KnownBytes.{Appends};
ghost use Rattle.rows.specs.vocabulary.Sizes.{IsTables, IsRecords};
ghost use Rattle.text.specs.vocabulary.Sizes.{REPLY};
ghost use Rattle.feed.specs.vocabulary.Buffers.{KEPT, session_in, Ready};
ghost use Rattle.stdio.specs.Sessions.{Answers, Whole};

use crate::Error;
use feed::{Kept, Stage, sessions};
use std::io::{Read, Write};

// Both runs, the buffer, what is kept in it and the output are parameters, not a struct that borrows them: its clauses
// would say besides that each of its fields is still the reference that it was.
// ---- writing
// Writes n bytes to the output: a number beside the bytes, as `finish` and `write_lines` give it.
// Ruled out: a byte that is left out, if the output says what it holds.
pub fn write_out<W: Write>(writer: &mut W, out: &[u8], n: usize) -> Result<(), Error>
    requires { n ≤ length out.now }
    ensures { OnOk result (Appends (W.contents writer.old) (W.contents writer.new) (take n out.now)) }
{
    writer.write_all(&out[..n]).map_err(|_| Error::NotWritten)
}

// ---- a part, the end
// Feeds a part, and writes what is printed before it returns.
fn answer_part<W: Write>(
    writer: &mut W,
    tables: &mut [u32],
    processes: &mut [u32],
    kept: &mut [u8],
    k: Kept,
    part: &[u8],
    out: &mut [u8],
) -> Result<Kept, Error>
    requires ready { Ready k kept.old tables.old processes.old }
    requires sizes { REPLY ≤ length out.old }
    ensures ready { IfOk result (λ r. Ready r kept.new tables.new processes.new) }
    ensures answers { IfOk result (λ r. Answers part.now
        (session_in k kept.old tables.old processes.old) (W.contents writer.old)
        (session_in r kept.new tables.new processes.new) (W.contents writer.new)) }
{
    let mut here = k;
    let mut at = 0;
    // a while: at goes on as far as the output had room
    while at < part.len() {
        let fed = sessions::feed(tables, processes, kept, here, part, at, out);
        write_out(writer, out, fed.printed)?;
        here = fed.kept;
        at = fed.next;
    }
    Ok(here)
}

// ---- the session
// Turn after turn, a part a turn: no input uses up their number, but a proved loop has to end, and nothing says that
// the input does.
// Ruled out: an end of the input, or an answer, that is lost; an input that cannot be read taken for its end.
pub fn run<R: Read, W: Write>(
    reader: &mut R,
    writer: &mut W,
    tables: &mut [u32],
    processes: &mut [u32],
    kept: &mut [u8],
    part: &mut [u8],
    out: &mut [u8],
) -> Result<(), Error>
    requires words { IsTables tables.old × IsRecords processes.old }
    requires bytes { (length kept.old ≡ KEPT) × (REPLY ≤ length out.old) }
    ensures { OnOk result (0 < length part.old → Whole
        (R.remaining reader.old) (W.contents writer.old)
        (R.remaining reader.new) (W.contents writer.new)
        tables.new processes.new) }
{
    let mut here = sessions::begin();
    for _ in 0..u64::MAX {
        let Ok(n) = reader.read(part) else {
            return Err(Error::NotRead);
        };
        if n == 0 {
            let printed = sessions::finish(tables, processes, kept, here, out);
            return write_out(writer, out, printed);
        }
        here = answer_part(writer, tables, processes, kept, here, &part[..n], out)?;
        if here.stage == Stage::Over {
            return Ok(());
        }
    }
    Err(Error::NotRead)
}
