// The program tablet: a session from standard input to standard output, an answer a line (crate stdio).

#![tactic(auto)]

use feed::KEPT;
use rows::layout::{RECORDS, TABLES};
use stdio::PART;
use stdio::sessions::run;

fn main(rt: HostRuntime) {
    let mut tables = [0u32; TABLES];
    let mut processes = [0u32; RECORDS];
    let mut kept = [0u8; KEPT];
    let mut part = [0u8; PART];
    let mut out = [0u8; PART];
    let session = run(
        &mut rt.stdin(),
        &mut rt.stdout(),
        &mut tables,
        &mut processes,
        &mut kept,
        &mut part,
        &mut out,
    );
    if let Err(e) = session {
        let _ = eprintln!(rt; "tablet: {e}");
    }
}
