// Processes that stand in a node through a removed row go to their prime node. Gone through no row is 0, no Option: a
// record is three lent words.
ghost use Rattle.std.specs.Prelude.{◌≤◌};
ghost use Rattle.rows.specs.vocabulary.Sizes.{ROWS, IsTables, IsRecords};
ghost use Rattle.changes.specs.vocabulary.Bits.{marks_in};
ghost use Rattle.closing.specs.vocabulary.Takes.{Homes, HomesEach, HomesAll, AwayIfAny, HomesWords};

use crate::marks::is_marked;
use changes::bits::SlotBits;
use rows::layout::PROCESSES;
use rows::records::Records;
use rows::{Process, records};

// One record.
fn home(t: &[u32], n: usize, x: Process, removed: &SlotBits) -> Process
    requires { IsTables t.now × (n ≤ ROWS) }
    ensures { Homes t.now n x (marks_in removed.now) result }
{
    if x.through == 0 {
        return x;
    }
    if is_marked(t, n, x.through, removed) {
        return Process {
            prime: x.prime,
            active: x.prime,
            through: 0,
        };
    }
    x
}

// Each record of a run of them.
fn home_each(ps: &mut [Process], t: &[u32], n: usize, removed: &SlotBits)
    requires { IsTables t.now × (n ≤ ROWS) }
    ensures { HomesEach t.now n ps.old (marks_in removed.now) ps.new }
{
    for x in ps.iter_mut() {
        *x = home(t, n, *x, removed);
    }
}

// All records.
// Ruled out: a process stays in a node that it reached through a removed row; one in its prime node moves.
fn home_all(t: &[u32], n: usize, mut ps: Records, removed: &SlotBits) -> Records
    requires { IsTables t.now × (n ≤ ROWS) }
    ensures { HomesAll t.now n ps (marks_in removed.now) result }
{
    home_each(&mut ps, t, n, removed);
    ps
}

// Whether a process went to its active node through a row. Every record is looked at, with no way out early.
// Ruled out: no, where the last process alone did.
fn any_away(ps: &[u32]) -> bool
    requires { IsRecords ps.now }
    ensures { AwayIfAny ps.now result }
{
    // no .any(..): what its no says of every record did not close
    let mut away = false;
    for k in 0..PROCESSES {
        let x = records::record_at(ps, k);
        away = (x.through != 0) | away;
    }
    away
}

// All records, in their words; most often there is nothing to do.
// Ruled out: the records are left as they were; those of another run are stored.
pub fn home_records(t: &[u32], n: usize, ps: &mut [u32], removed: &SlotBits)
    requires { IsTables t.now × (n ≤ ROWS) × IsRecords ps.old }
    ensures homed { HomesWords t.now n ps.old (marks_in removed.now) ps.new }
    ensures long { IsRecords ps.new }
{
    if !any_away(ps) {
        return;
    }
    let before = records::load(ps);
    let after = home_all(t, n, before, removed);
    records::store(after, ps);
}
