// Calls on ports: port, close.
ghost use Rattle.std.specs.Prelude.{◌≤◌, ◌<◌, ◌+◌};
ghost use Rattle.rows.specs.vocabulary.Sizes.{ROWS, LAST-NUMBER, IsTables, IsRecords};
ghost use Rattle.calls.specs.declared.Call.{Call};
ghost use Rattle.calls.specs.vocabulary.Performs.{Performs, PerformsApart, HasRoom, RefusesPort, MakesPort};
ghost use Rattle.calls.specs.vocabulary.Performs.{refusal_in, answer_in, RefusesClose, ClosesHeld};
ghost use Rattle.calls.specs.vocabulary.Effects.{IsProcess, PortMade};

use crate::new_rows::append_ends;
use crate::{Answer, NewPort, Refusal, lookups, tests};
use changes::change;
use closing::close::close_port;
use questions::question::on_loan;
use rows::codes::{A_CLIENT_END, AN_OPERATION, clist};
use rows::layout::{KIND, OBJECT};
use rows::{find, read};

// A port from the operation row in slot i: the client end to p, the server end to the row's manager.
// Ruled out: both ends to p; ends that come from no row.
pub fn add_port(t: &mut [u32], n: usize, i: usize, p: u32, d: u32, next: u32)
    requires { IsTables t.old × (n + 1 < ROWS) × (i < n) × (next < LAST-NUMBER) × IsProcess p }
    ensures made { PortMade t.old n i p d next t.new }
    ensures long { IsTables t.new }
{
    let manager = t[OBJECT + i];
    let port = NewPort {
        number: next,
        source: (i + 1) as u32,
        client: clist(p),
        server: clist(manager),
        depth: d,
    };
    append_ends(t, n, port);
    change::set_next(t, next + 2);
}

// What refuses a port from the row in slot i, which the caller holds: 8 and on.
fn port_refusal(t: &[u32], n: usize, i: usize, d: u32, next: u32) -> Result<(), Refusal>
    requires { IsTables t.now × (n ≤ ROWS) × (i < n) }
    ensures lowest { RefusesPort t.now n i d next (refusal_in result) }
    ensures room { HasRoom n next 2 (refusal_in result) }
{
    if t[KIND + i] != AN_OPERATION {
        return Err(Refusal::WrongKind);
    }
    tests::rows_refusal(n, next, d, 2)
}

// port from the row in slot i, which p holds.
fn port_row(t: &mut [u32], n: usize, i: usize, p: u32) -> Result<Answer, Refusal>
    requires { IsTables t.old × (n ≤ ROWS) × (i < n) × IsProcess p }
    ensures answers { MakesPort t.old n i p t.new (answer_in result) }
    ensures long { IsTables t.new }
{
    let next = read::next_of(t);
    let d = lookups::depth_over(t, (i + 1) as u32, 0);
    port_refusal(t, n, i, d, next)?;
    add_port(t, n, i, p, d, next);
    Ok(Answer::Made(next))
}

// port: 7 for a row that the caller does not hold; then the row's own refusals.
// Ruled out: a port from a subdirectory; the server end's number as the answer.
pub fn port(t: &mut [u32], p: u32, e: u32) -> Answer
    requires { IsTables t.old × IsProcess p }
    ensures performs { PerformsApart t.old (Call.Port p e) t.new result }
    ensures long { IsTables t.new }
{
    let n = find::count_rows(t);
    let Some(i) = lookups::held_by(t, n, p, e) else {
        return Refusal::NotHeld.into();
    };
    port_row(t, n, i, p).unwrap_or_else(Answer::from)
}

// What refuses to close the port of the row c in slot i, which the caller holds: 8, 12.
fn close_refusal(t: &[u32], i: usize, c: u32) -> Result<(), Refusal>
    requires { IsTables t.now × (i < ROWS) }
    ensures { RefusesClose t.now i c (refusal_in result) }
{
    if t[KIND + i] != A_CLIENT_END {
        return Err(Refusal::WrongKind);
    }
    if on_loan(t, c) {
        return Err(Refusal::Lent);
    }
    Ok(())
}

// close of the port of the row c in slot i, which the caller holds.
fn close_held(t: &mut [u32], ps: &mut [u32], i: usize, c: u32) -> Result<Answer, Refusal>
    requires { IsTables t.old × IsRecords ps.old × (i < ROWS) }
    ensures closes { ClosesHeld t.old ps.old i c t.new
        ps.new (answer_in result) }
    ensures long { IsTables t.new × IsRecords ps.new }
{
    close_refusal(t, i, c)?;
    close_port(t, ps, c);
    Ok(Answer::Done)
}

// close: 7 for a row that the caller does not hold; then the row's own refusals.
// Ruled out: a server end closes the port; a client end on loan does.
pub fn close(t: &mut [u32], ps: &mut [u32], p: u32, c: u32) -> Answer
    requires { IsTables t.old × IsRecords ps.old × IsProcess p }
    ensures performs { Performs t.old ps.old (Call.Close p c) t.new
        ps.new result }
    ensures long { IsTables t.new × IsRecords ps.new }
{
    let n = find::count_rows(t);
    let Some(i) = lookups::held_by(t, n, p, c) else {
        return Refusal::NotHeld.into();
    };
    close_held(t, ps, i, c).unwrap_or_else(Answer::from)
}
