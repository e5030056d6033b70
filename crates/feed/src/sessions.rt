// A session fed: a line that has ended, a byte, a part, the end of the input (specs/Feeding.antt).
ghost use Rattle.std.specs.Prelude.{◌≡◌, ◌≤◌, length};
ghost use Rattle.text.specs.vocabulary.Sizes.{REPLY};
ghost use Rattle.entry.specs.vocabulary.Entries.{Given};
ghost use Rattle.feed.specs.Feeding.{opening_line, call_line, byte_fed, finished};
ghost use Rattle.feed.specs.vocabulary.Buffers.{session_in, Stands, HasRoom, Ready, Moves};
ghost use Rattle.feed.specs.vocabulary.Buffers.{at_line_start, line_ended, ReadsOn, Feeds, Begins};

use crate::deciding::{stage_after, undecided};
use crate::keeping::keep_byte;
use crate::{Fed, Kept, Moved, Stage};
use entry::exports::{tablet_call, tablet_open};
use text::REPLY;

// A stage is matched: it is part of what the caller keeps between two calls (`Kept`), so no closure stands for it.
// Both runs, the buffer, what is kept in it and the output stay parameters: `Takes`, from which the theorem on every
// run starts, speaks of each as it was and as it is, and a struct of references to them would say the same field by
// field.
// ---- a line has ended
// At the start of a line, after so many bytes were printed.
fn line_start(stage: Stage, text: usize, printed: usize) -> Moved
    ensures { result ≡ at_line_start stage text printed }
{
    let kept = Kept {
        stage,
        text,
        line: 0,
    };
    Moved { kept, printed }
}

// A line of the opening: it waits for the next one, or it is decided and answered.
fn opening_line(
    tables: &mut [u32],
    processes: &mut [u32],
    kept: &[u8],
    k: Kept,
    out: &mut [u8],
) -> Moved
    requires { Stands k kept.now × (REPLY ≤ length out.old) }
    ensures { Moves (λ s. opening_line s s.line)
        k kept.now tables.old processes.old out.old
        result kept.now tables.new processes.new out.new }
{
    let end = k.text + k.line;
    if undecided(&kept[..end]) {
        return line_start(Stage::Opening, end, 0);
    }
    let n = tablet_open(tables, processes, &kept[..end], out);
    line_start(stage_after(out), 0, n)
}

// A call is answered.
fn call_line(
    tables: &mut [u32],
    processes: &mut [u32],
    kept: &[u8],
    k: Kept,
    out: &mut [u8],
) -> Moved
    requires { Stands k kept.now × (REPLY ≤ length out.old) }
    ensures { Moves (λ s. call_line s s.line)
        k kept.now tables.old processes.old out.old
        result kept.now tables.new processes.new out.new }
{
    let at = k.text;
    let end = k.text + k.line;
    let n = tablet_call(tables, processes, &kept[at..end], out);
    line_start(Stage::Calls, 0, n)
}

// The line begun has ended: by the stage, a line of the opening, a call, or nothing.
// Ruled out: an answer after a refused opening.
pub fn line_ended(
    tables: &mut [u32],
    processes: &mut [u32],
    kept: &[u8],
    k: Kept,
    out: &mut [u8],
) -> Moved
    requires { Stands k kept.now × (REPLY ≤ length out.old) }
    ensures { Moves line_ended
        k kept.now tables.old processes.old out.old
        result kept.now tables.new processes.new out.new }
{
    match k.stage {
        Stage::Opening => opening_line(tables, processes, kept, k, out),
        Stage::Calls => call_line(tables, processes, kept, k, out),
        Stage::Over => line_start(Stage::Over, 0, 0),
    }
}

// ---- a byte
// A byte is kept; a line feed ends the line.
// Ruled out: a line feed that does not end the line; a byte that is not kept.
pub fn feed_byte(
    tables: &mut [u32],
    processes: &mut [u32],
    kept: &mut [u8],
    k: Kept,
    b: u8,
    out: &mut [u8],
) -> Moved
    requires { HasRoom k kept.old × (REPLY ≤ length out.old) }
    ensures { Moves (λ s. byte_fed s b)
        k kept.old tables.old processes.old out.old
        result kept.new tables.new processes.new out.new }
{
    let after = keep_byte(kept, k, b);
    if b == b'\n' {
        return line_ended(tables, processes, kept, after, out);
    }
    Moved {
        kept: after,
        printed: 0,
    }
}

// ---- a part
// Bytes of a part from a position on, as long as `out` has room for a reply.
// Ruled out: a byte that is left out or fed twice; what is printed written over; an answer one byte short.
pub fn feed(
    tables: &mut [u32],
    processes: &mut [u32],
    kept: &mut [u8],
    k: Kept,
    part: &[u8],
    at: usize,
    out: &mut [u8],
) -> Fed
    requires ready { Ready k kept.old tables.old processes.old }
    requires sizes { (at ≤ length part.now) × (REPLY ≤ length out.old) }
    ensures fed { Feeds part.now at
        k kept.old tables.old processes.old out.old
        result kept.new tables.new processes.new out.new }
    ensures ready { Ready result.kept kept.new tables.new processes.new }
    ensures reads { ReadsOn at part.now result.next }
    ensures within { result.printed ≤ length out.new }
{
    let mut here = k;
    let mut n = 0;
    for i in at..part.len() {
        if out.len() - n < REPLY {
            return Fed {
                kept: here,
                printed: n,
                next: i,
            };
        }
        let moved = feed_byte(tables, processes, kept, here, part[i], &mut out[n..]);
        here = moved.kept;
        n += moved.printed;
    }
    Fed {
        kept: here,
        printed: n,
        next: part.len(),
    }
}

// ---- the beginning and the end
// Nothing is kept yet, and the opening is read.
pub fn begin() -> Kept
    ensures { Begins result }
{
    Kept {
        stage: Stage::Opening,
        text: 0,
        line: 0,
    }
}

// The input has ended: an opening that is not decided is answered, and a line begun is a call without its line feed.
// Ruled out: a line begun that is forgotten; an answer after a refused opening.
pub fn finish(
    tables: &mut [u32],
    processes: &mut [u32],
    kept: &[u8],
    k: Kept,
    out: &mut [u8],
) -> usize
    requires { Stands k kept.now × (REPLY ≤ length out.old) }
    ensures within { result ≤ length out.new }
    ensures given { Given
        (finished k.stage (session_in k kept.now tables.old processes.old))
        out.old tables.new processes.new out.new result }
{
    let at = k.text;
    let end = k.text + k.line;
    match k.stage {
        Stage::Opening => tablet_open(tables, processes, &kept[..end], out),
        Stage::Calls => {
            if at == end {
                return 0;
            }
            tablet_call(tables, processes, &kept[at..end], out)
        }
        Stage::Over => 0,
    }
}
