// New rows in the first free slots, and the next number after theirs.
ghost use Rattle.std.specs.Prelude.{◌≡◌, ◌≤◌, ◌<◌, ◌+◌};
ghost use Rattle.rows.specs.vocabulary.Sizes.{ROWS, LAST-NUMBER, IsTables};
ghost use Rattle.calls.specs.Calls.{port_end};
ghost use Rattle.calls.specs.vocabulary.Effects.{Copied, EndsAdded};

use crate::{NewCopy, NewPort};
use changes::change;
use rows::codes::{A_CLIENT_END, A_SERVER_END};
use rows::{Row, read};

// Appends a copy of the row in slot i.
// Ruled out: a copy with another row's object; a source that is not the row at its word.
pub fn append_copy(t: &mut [u32], n: usize, i: usize, w: NewCopy)
    requires { IsTables t.old × (n < ROWS) × (i < ROWS) × (w.source ≤ n) × (w.via ≤ n) }
    ensures copied { Copied t.old n i w t.new }
    ensures long { IsTables t.new }
{
    let of = read::row_at(t, i);
    let row = Row {
        number: w.number,
        kind: of.kind,
        object: of.object,
        operation: of.operation,
        rights: w.rights,
        place: w.place,
        source: w.source,
        via: w.via,
        depth: w.depth,
        request: w.request,
    };
    change::append_row(t, n, row);
}

// An end of a port, its source as a word.
fn port_end(kind: u32, number: u32, port: u32, place: u32, source: u32, depth: u32) -> Row
    ensures { result ≡ port_end kind number port place source depth }
{
    Row {
        number: number,
        kind: kind,
        object: port,
        operation: 0,
        rights: 0,
        place: place,
        source: source,
        via: 0,
        depth: depth,
        request: 0,
    }
}

// Appends both ends of a port, the client end first.
// Ruled out: the server end before the client end; two ends with one number.
pub fn append_ends(t: &mut [u32], n: usize, w: NewPort)
    requires { IsTables t.old × (n + 1 < ROWS) × (w.source ≤ n) × (w.number ≤ LAST-NUMBER) }
    ensures added { EndsAdded t.old n w t.new }
    ensures long { IsTables t.new }
{
    let client = port_end(
        A_CLIENT_END,
        w.number,
        w.number,
        w.client,
        w.source,
        w.depth,
    );
    change::append_row(t, n, client);
    let server = port_end(
        A_SERVER_END,
        w.number + 1,
        w.number,
        w.server,
        w.source,
        w.depth,
    );
    change::append_row(t, n + 1, server);
}
