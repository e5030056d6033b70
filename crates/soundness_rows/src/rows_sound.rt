// The rows are sound, but for the requests that they bear (crate soundness_loans): the clauses of every row, the oldest
// first, in one loop for each group of clauses.
// The loops go by the slot and test each row: .all, which stops early, takes twice the instructions.
// t, n and the packed words travel together in two functions alone; a struct of them would be named in each clause.
ghost use Rattle.std.specs.Prelude.{◌<◌, ◌≤◌};
ghost use Rattle.rows.specs.Layout.{records_in};
ghost use Rattle.rows.specs.vocabulary.Sizes.{ROWS, IsTables, IsRecords};
ghost use Rattle.rows.specs.vocabulary.OfState.{OfRows};
ghost use Rattle.soundness_rows.specs.vocabulary.AtSlot.{OfNeighbours, OfPorts, OfSources, OfFaithful};
ghost use Rattle.soundness_rows.specs.vocabulary.Seen.{SourcesBefore, SourcesOlder};
ghost use Rattle.soundness_rows.specs.vocabulary.Packed.{PacksRows};
ghost use Rattle.soundness_rows.specs.vocabulary.Clauses.{fields_and_sources, all_but_loans};

use crate::packed::{PACKED, pack};
use crate::row_clauses::{of_one_port, own_right, sources_right};
use rows::Row;
use rows::codes::{A_CLIENT_END, A_SERVER_END};
use rows::read::row_at;

// ---- ends in pairs
// Two rows of neighbouring slots: a client end stands right before the server end of its port, and nothing else does.
// Ruled out: a server end after another row; a client end before the end of another port.
fn beside(a: Row, b: Row) -> bool
    ensures { OfNeighbours a b result }
{
    let client = a.kind == A_CLIENT_END;
    let server = b.kind == A_SERVER_END;
    let both = (client & server) | (!client & !server);
    let port = of_one_port(b, a);
    both & (!client | port)
}

// Ends stand in pairs, where they have the objects that their numbers tell.
// Ruled out: yes for an oldest row that is a server end; yes for a newest row that is a client end.
fn ends_paired(t: &[u32], n: usize) -> bool
    requires { IsTables t.now × (n ≤ ROWS) }
    ensures { OfPorts t.now n result }
{
    if n == 0 {
        return true;
    }
    let oldest = row_at(t, 0);
    let mut right = !(oldest.kind == A_SERVER_END);
    for i in 0..n - 1 {
        let a = row_at(t, i);
        let b = row_at(t, i + 1);
        right = beside(a, b) & right;
    }
    let newest = row_at(t, n - 1);
    right & !(newest.kind == A_CLIENT_END)
}

// ---- of one slot
// The clauses of the sources of the row at slot i. Ruled out: the sources of another row; the word of the slot before.
fn sources_at(t: &[u32], packs: &[u32; PACKED], i: usize, n: usize) -> bool
    requires sizes { IsTables t.now × (i < n) × (n ≤ ROWS) }
    requires sources { SourcesBefore t.now i }
    requires packed { PacksRows t.now n packs.now }
    ensures { OfSources t.now n i result }
{
    let x = row_at(t, i);
    let w = packs[i + 1];
    let s = packs[x.source as usize];
    let v = packs[x.via as usize];
    sources_right(x, w, s, v)
}

// ---- of all rows
// Ruled out: the last row alone decides; a row past the first n.
fn packed_sound(t: &[u32], packs: &[u32; PACKED], n: usize) -> bool
    requires sizes { IsTables t.now × (n ≤ ROWS) }
    requires sources { SourcesOlder t.now n }
    requires packed { PacksRows t.now n packs.now }
    ensures { OfFaithful t.now n result }
{
    let mut right = true;
    for i in 0..n {
        right = sources_at(t, packs, i, n) & right;
    }
    right
}

// The clauses of fields and of sources: in one loop fields are tested and rows packed, in the next their sources.
// Ruled out: words left from no row; the last row is not tested.
fn sources_sound(t: &[u32], p: &[u32], n: usize) -> bool
    requires sizes { IsTables t.now × IsRecords p.now × (n ≤ ROWS) }
    requires sources { SourcesOlder t.now n }
    ensures { OfRows t.now n result (fields_and_sources (records_in p.now)) }
{
    let mut packs = [0u32; PACKED];
    let mut right = true;
    for i in 0..n {
        let x = row_at(t, i);
        right = own_right(x, p) & right;
        packs[i + 1] = pack(x);
    }
    right & packed_sound(t, &packs, n)
}

// The clauses of rows, but for the requests that they bear.
// Ruled out: a last row that is not tested; true where one row breaks one clause.
pub fn rows_sound(t: &[u32], p: &[u32], n: usize) -> bool
    requires sizes { IsTables t.now × IsRecords p.now × (n ≤ ROWS) }
    requires sources { SourcesOlder t.now n }
    ensures { OfRows t.now n result (all_but_loans (records_in p.now)) }
{
    let sources = sources_sound(t, p, n);
    let paired = ends_paired(t, n);
    sources & paired
}
