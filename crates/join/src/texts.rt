// Two opening texts from a reader, and the joined text to a writer; what is kept of the input and what is joined is
// decided in the crate joining.
ghost use Rattle.std.specs.Prelude.{◌≡◌, ◌≤◌, length};
ghost use Rattle.text.specs.vocabulary.Sizes.{REPLY, KEPT-LINE};
ghost use Rattle.joining.specs.vocabulary.Directories.{DIRECTORY};
ghost use Rattle.joining.specs.vocabulary.Reading.{Ready, ReadyTexts};

use joining::answers::write_answer;
use joining::{Joining, SLOTS, feeding};
use std::io::{Read, Write};
use stdio::Error;
use stdio::sessions::write_out;

// Prints the answer, as many lines at once as `out` has room for: the joined text may be longer.
fn print_answer<W: Write>(
    writer: &mut W,
    first: &[u32],
    second: &[u32],
    j: Joining,
    out: &mut [u8],
) -> Result<(), Error>
    requires { Ready j first.now second.now × (REPLY ≤ length out.old) }
{
    let v = feeding::finish(first, second, j);
    let mut from = 0;
    // a while: from goes on by as many slots as had room
    while from < SLOTS {
        let written = write_answer(first, second, v, from, out);
        write_out(writer, out, written.printed)?;
        from = written.next;
    }
    Ok(())
}

// Reads two texts, a part a turn, until both have ended or the input has, and prints them joined. No input uses up the
// number of turns.
pub fn join<R: Read, W: Write>(
    reader: &mut R,
    writer: &mut W,
    first: &mut [u32],
    second: &mut [u32],
    line: &mut [u8],
    part: &mut [u8],
    out: &mut [u8],
) -> Result<(), Error>
    requires words { (length first.old ≡ DIRECTORY) × (length second.old ≡ DIRECTORY) }
    requires bytes { (length line.old ≡ KEPT-LINE) × (REPLY ≤ length out.old) }
{
    let mut here = feeding::begin(first, second);
    let mut kept = 0;
    for _ in 0..u64::MAX {
        let Ok(n) = reader.read(part) else {
            return Err(Error::NotRead);
        };
        if n == 0 {
            break;
        }
        let fed = feeding::feed(first, second, line, here, kept, &part[..n]);
        here = fed.joining;
        kept = fed.line;
        if !feeding::is_going(here) {
            break;
        }
    }
    print_answer(writer, first, second, here, out)
}
