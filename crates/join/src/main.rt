// The program join: two opening texts from standard input, the joined text or the refusal to standard output (crate
// stdio).

#![tactic(auto)]

use crate::texts::join;
use joining::DIRECTORY;
use stdio::PART;
use text::kept_lines::KEPT_LINE;

mod texts;

// bytes printed at most before they are written: less than the longest joined text
const LINES: usize = 4096;

fn main(rt: HostRuntime) {
    let mut first = [0u32; DIRECTORY];
    let mut second = [0u32; DIRECTORY];
    let mut line = [0u8; KEPT_LINE];
    let mut part = [0u8; PART];
    let mut out = [0u8; LINES];
    let joined = join(
        &mut rt.stdin(),
        &mut rt.stdout(),
        &mut first,
        &mut second,
        &mut line,
        &mut part,
        &mut out,
    );
    if let Err(e) = joined {
        let _ = eprintln!(rt; "join: {e}");
    }
}
