// The three closings over the lent words: of a request, of a port, and the drop of one row: instances of one function,
// each with its own definition. t and ps are lent apart, as the C interface lends them.
ghost use Rattle.std.specs.Prelude.{◌≡◌, ◌≤◌};
ghost use Rattle.rows.specs.vocabulary.Sizes.{ROWS, IsTables, IsRecords};
ghost use Rattle.changes.specs.vocabulary.Bits.{marks_in, gones};
ghost use Rattle.closing.specs.Closing.{close_request, close_port, drop_row};
ghost use Rattle.closing.specs.vocabulary.Seeds.{closing_from};
ghost use Rattle.closing.specs.vocabulary.Takes.{Takes, TakesOut};

use crate::Seed;
use crate::homes::home_records;
use crate::lists::settle_lists;
use crate::marks::{count_removed, mark_requests, mark_rows};
use changes::bits::SlotBits;
use changes::remove;
use rows::find;

// The marked rows, so many, are removed and the requests close: lists and places first, while slots are as the marks
// have them.
fn take_out(t: &mut [u32], n: usize, gone: usize, s: Seed, removed: &SlotBits)
    requires sizes { IsTables t.old × (n ≤ ROWS) }
    requires gone { gone ≡ gones (marks_in removed.now) n }
    ensures out { TakesOut s n (marks_in removed.now) t.old t.new }
    ensures long { IsTables t.new }
{
    let m = find::count_requests(t);
    let closed = mark_requests(t, n, m, removed, s);
    settle_lists(t, n, m, removed, &closed);
    remove::remove_rows(t, n, gone, removed);
    remove::remove_requests(t, &closed);
}

// The closing from its seeds.
fn close(t: &mut [u32], ps: &mut [u32], s: Seed)
    requires { IsTables t.old × IsRecords ps.old }
    ensures closed { Takes (closing_from s) t.old ps.old t.new
        ps.new }
    ensures long { IsTables t.new × IsRecords ps.new }
{
    let n = find::count_rows(t);
    let removed = mark_rows(t, n, s);
    home_records(t, n, ps, &removed);
    let gone = count_removed(&removed, n);
    take_out(t, n, gone, s, &removed);
}

// Closes request q.
// Ruled out: an end left in a newer list; the newest instead of the oldest asker;
// a cascade that stops after one port; a process left in a removed directory.
pub fn close_request(t: &mut [u32], ps: &mut [u32], q: u32)
    requires { IsTables t.old × IsRecords ps.old }
    ensures closed { Takes (close_request q) t.old ps.old t.new
        ps.new }
    ensures long { IsTables t.new × IsRecords ps.new }
{
    close(t, ps, Seed::Bearing(q));
}

// Closes the port whose client end is c.
// Ruled out: one end stays; the request open on the port stays.
pub fn close_port(t: &mut [u32], ps: &mut [u32], c: u32)
    requires { IsTables t.old × IsRecords ps.old }
    ensures closed { Takes (close_port c) t.old ps.old t.new ps.new }
    ensures long { IsTables t.new × IsRecords ps.new }
{
    close(t, ps, Seed::EndsOf(c));
}

// Drops the row e.
// Ruled out: a copy of the row stays; the row's source goes.
pub fn drop_row(t: &mut [u32], ps: &mut [u32], e: u32)
    requires { IsTables t.old × IsRecords ps.old }
    ensures dropped { Takes (drop_row e) t.old ps.old t.new ps.new }
    ensures long { IsTables t.new × IsRecords ps.new }
{
    close(t, ps, Seed::Only(e));
}
