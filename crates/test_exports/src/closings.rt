// Closing in place, the process records with it. Where either run of words has another length, nothing changes.
ghost use Rattle.closing.specs.Closing.{close_request, close_port, drop_row};
ghost use Rattle.test_exports.specs.vocabulary.Exports.{Closes, BothStay};

use closing::close;
use rows::layout::{RECORDS, TABLES};

#[unsafe(no_mangle)]
pub extern "C" fn kernel_close_request(t: &mut [u32], p: &mut [u32], q: u32)
    ensures done { Closes (close_request q) t.old t.new p.old p.new }
    ensures other { BothStay t.old t.new p.old p.new }
{
    if t.len() != TABLES {
        return;
    }
    if p.len() != RECORDS {
        return;
    }
    close::close_request(t, p, q);
}

#[unsafe(no_mangle)]
pub extern "C" fn kernel_close_port(t: &mut [u32], p: &mut [u32], c: u32)
    ensures done { Closes (close_port c) t.old t.new p.old p.new }
    ensures other { BothStay t.old t.new p.old p.new }
{
    if t.len() != TABLES {
        return;
    }
    if p.len() != RECORDS {
        return;
    }
    close::close_port(t, p, c);
}

#[unsafe(no_mangle)]
pub extern "C" fn kernel_drop_row(t: &mut [u32], p: &mut [u32], e: u32)
    ensures done { Closes (drop_row e) t.old t.new p.old p.new }
    ensures other { BothStay t.old t.new p.old p.new }
{
    if t.len() != TABLES {
        return;
    }
    if p.len() != RECORDS {
        return;
    }
    close::drop_row(t, p, e);
}
