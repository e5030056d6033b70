// Calls on directories: go, hold, register, drop.
ghost use Rattle.std.specs.Prelude.{◌≤◌, ◌<◌};
ghost use Rattle.rows.specs.vocabulary.Sizes.{ROWS, LAST-NUMBER, IsTables, IsRecords};
ghost use Rattle.calls.specs.declared.Call.{Call};
ghost use Rattle.calls.specs.vocabulary.Performs.{Performs, HasRoom, RefusesHold, HoldsRow, RefusesRegister};
ghost use Rattle.calls.specs.vocabulary.Performs.{RegistersRow, IsSourceOfSome, RefusesDrop, DropsHeld};
ghost use Rattle.calls.specs.vocabulary.Performs.{refusal_in, answer_in};
ghost use Rattle.calls.specs.vocabulary.Effects.{IsProcess, GoesHome, GoesThrough, HeldBy};
ghost use Rattle.calls.specs.vocabulary.Effects.{RegisteredBy};

use crate::new_rows::append_copy;
use crate::{Answer, NewCopy, Refusal, lookups, tests};
use changes::change;
use closing::close::drop_row;
use questions::question;
use rows::codes::{A_SUBDIRECTORY, clist, is_end};
use rows::layout::{KIND, OBJECT, RIGHTS, SOURCE, VIA};
use rows::records::{record_at, set_record};
use rows::{Process, Rights, find, read};

// The record of p in its prime node. Not one function with go_through: each has a definition and lends other words.
// Ruled out: the record of another process changes; the row gone through stays.
pub fn go_home(ps: &mut [u32], p: u32)
    requires { IsRecords ps.old × IsProcess p }
    ensures home { GoesHome ps.old p ps.new }
    ensures long { IsRecords ps.new }
{
    let i = (p - 1) as usize;
    let x = record_at(ps, i);
    let home = Process {
        prime: x.prime,
        active: x.prime,
        through: 0,
    };
    set_record(ps, i, home);
}

// The record of p in the node of the row e, which stands in slot i.
// Ruled out: the prime node changes; the slot of the row, not its number, is kept.
pub fn go_through(t: &[u32], i: usize, ps: &mut [u32], p: u32, e: u32)
    requires { IsTables t.now × (i < ROWS) × IsRecords ps.old × IsProcess p }
    ensures there { GoesThrough t.now i ps.old p e ps.new }
    ensures long { IsRecords ps.new }
{
    let k = (p - 1) as usize;
    let x = record_at(ps, k);
    let there = Process {
        prime: x.prime,
        active: t[OBJECT + i],
        through: e,
    };
    set_record(ps, k, there);
}

// A copy of the row in slot i, in the c-list of p, from that row and the row that p went through.
// Ruled out: the second source is left out; the copy has the place of its row.
pub fn add_held(t: &mut [u32], n: usize, i: usize, p: u32, via: u32, d: u32, next: u32)
    requires { IsTables t.old × (n < ROWS) × (i < n) × (via ≤ n) × (next ≤ LAST-NUMBER) }
    ensures held { HeldBy t.old n i p via d next t.new }
    ensures long { IsTables t.new }
{
    let copy = NewCopy {
        number: next,
        rights: t[RIGHTS + i],
        place: clist(p),
        source: (i + 1) as u32,
        via: via,
        depth: d,
        request: 0,
    };
    append_copy(t, n, i, copy);
    change::set_next(t, next + 1);
}

// A copy of the row in slot i, in a node, from that row's first source.
// As add_held, but place and sources are others, and each has its definition.
// Ruled out: it comes from the row itself; it comes from the row's second source too.
pub fn add_registered(t: &mut [u32], n: usize, i: usize, node: u32, source: u32, d: u32, next: u32)
    requires { IsTables t.old × (n < ROWS) × (i < n) × (source ≤ n) × (next ≤ LAST-NUMBER) }
    ensures registered { RegisteredBy t.old n i node source d next t.new }
    ensures long { IsTables t.new }
{
    let copy = NewCopy {
        number: next,
        rights: t[RIGHTS + i],
        place: node,
        source: source,
        via: 0,
        depth: d,
        request: 0,
    };
    append_copy(t, n, i, copy);
    change::set_next(t, next + 1);
}

// go: 7 for a row that the caller does not hold, 8 for one that is no subdirectory.
// Ruled out: another process moves; the caller moves where it is refused.
pub fn go(t: &[u32], ps: &mut [u32], p: u32, e: u32) -> Answer
    requires { IsTables t.now × IsRecords ps.old × IsProcess p }
    ensures performs { Performs t.now ps.old (Call.Go p e) t.now
        ps.new result }
    ensures long { IsRecords ps.new }
{
    if e == 0 {
        go_home(ps, p);
        return Answer::Done;
    }
    let n = find::count_rows(t);
    let Some(i) = lookups::held_by(t, n, p, e) else {
        return Refusal::NotHeld.into();
    };
    if t[KIND + i] != A_SUBDIRECTORY {
        return Refusal::WrongKind.into();
    }
    go_through(t, i, ps, p, e);
    Answer::Done
}

// What refuses to hold the row in slot i, of the active node: 9 and on.
fn hold_refusal(t: &[u32], n: usize, i: usize, via: u32, d: u32, next: u32) -> Result<(), Refusal>
    requires { IsTables t.now × (n ≤ ROWS) × (i < n) × (via ≤ n) }
    ensures lowest { RefusesHold t.now n i via d next (refusal_in result) }
    ensures room { HasRoom n next 1 (refusal_in result) }
{
    let rights = Rights(t[RIGHTS + i]);
    if !rights.contains(Rights::HOLD) {
        return Err(Refusal::NoRight);
    }
    if tests::takes_lent(t, i, via) {
        return Err(Refusal::Lent);
    }
    tests::rows_refusal(n, next, d, 1)
}

// hold of the row in slot i, which is in the active node of p.
fn hold_row(t: &mut [u32], n: usize, i: usize, via: u32, p: u32) -> Result<Answer, Refusal>
    requires { IsTables t.old × (n ≤ ROWS) × (i < n) × (via ≤ n) }
    ensures answers { HoldsRow t.old n i via p t.new (answer_in result) }
    ensures long { IsTables t.new }
{
    let next = read::next_of(t);
    let d = lookups::depth_over(t, (i + 1) as u32, via);
    hold_refusal(t, n, i, via, d, next)?;
    add_held(t, n, i, p, via, d, next);
    Ok(Answer::Made(next))
}

// hold: 7 for a row that is not in the active node; then the row's own refusals.
// Ruled out: a row of the prime node where another is active; a row that the caller holds.
pub fn hold(t: &mut [u32], ps: &[u32], p: u32, s: u32) -> Answer
    requires { IsTables t.old × IsRecords ps.now × IsProcess p }
    ensures performs { Performs t.old ps.now (Call.Hold p s) t.new
        ps.now result }
    ensures long { IsTables t.new }
{
    let x = record_at(ps, (p - 1) as usize);
    let n = find::count_rows(t);
    let Some(i) = lookups::row_in(t, n, x.active, s) else {
        return Refusal::NotHeld.into();
    };
    let via = lookups::row_word(t, n, x.through);
    hold_row(t, n, i, via, p).unwrap_or_else(Answer::from)
}

// What refuses to register the row in slot i, which the caller holds: 8 and on.
fn register_refusal(t: &[u32], n: usize, i: usize, d: u32, next: u32) -> Result<(), Refusal>
    requires { IsTables t.now × (n ≤ ROWS) × (i < n) }
    ensures lowest { RefusesRegister t.now n i d next (refusal_in result) }
    ensures room { HasRoom n next 1 (refusal_in result) }
{
    if is_end(t[KIND + i]) {
        return Err(Refusal::WrongKind);
    }
    let rights = Rights(t[RIGHTS + i]);
    if !rights.contains(Rights::REGISTER) {
        return Err(Refusal::NoRight);
    }
    if question::lent(t, i) {
        return Err(Refusal::Lent);
    }
    tests::rows_refusal(n, next, d, 1)
}

// register of the row in slot i, which the caller holds, into a node.
// As hold_row, but source, place, refusals and effect are others: nothing but `?` is the same.
fn register_row(t: &mut [u32], n: usize, i: usize, node: u32) -> Result<Answer, Refusal>
    requires { IsTables t.old × (n ≤ ROWS) × (i < n) }
    ensures answers { RegistersRow t.old n i node t.new (answer_in result) }
    ensures long { IsTables t.new }
{
    let next = read::next_of(t);
    let source = lookups::source_word(t, n, i);
    let d = lookups::depth_over(t, source, 0);
    register_refusal(t, n, i, d, next)?;
    add_registered(t, n, i, node, source, d, next);
    Ok(Answer::Made(next))
}

// register: 7 for a row that the caller does not hold; then the row's own refusals.
// Ruled out: a copy in the prime node where another is active; a row of another process.
pub fn register(t: &mut [u32], ps: &[u32], p: u32, e: u32) -> Answer
    requires { IsTables t.old × IsRecords ps.now × IsProcess p }
    ensures performs { Performs t.old ps.now (Call.Register p e) t.new
        ps.now result }
    ensures long { IsTables t.new }
{
    let x = record_at(ps, (p - 1) as usize);
    let n = find::count_rows(t);
    let Some(i) = lookups::held_by(t, n, p, e) else {
        return Refusal::NotHeld.into();
    };
    register_row(t, n, i, x.active).unwrap_or_else(Answer::from)
}

// Whether a row has the row in slot i for a source.
// Every row is looked at, with no way out early, so that the loop runs over many words at once.
fn is_source(t: &[u32], n: usize, i: usize) -> bool
    requires { IsTables t.now × (n ≤ ROWS) × (i < ROWS) }
    ensures { IsSourceOfSome t.now n i result }
{
    let word = (i + 1) as u32;
    let mut found = false;
    for k in 0..n {
        found = (t[SOURCE + k] == word) | (t[VIA + k] == word) | found;
    }
    found
}

// What refuses to drop the row e in slot i, which the caller holds: 8, 13.
fn drop_refusal(t: &[u32], n: usize, i: usize, through: u32, e: u32) -> Result<(), Refusal>
    requires { IsTables t.now × (n ≤ ROWS) × (i < ROWS) }
    ensures { RefusesDrop t.now n i through e (refusal_in result) }
{
    if is_end(t[KIND + i]) {
        return Err(Refusal::WrongKind);
    }
    if is_source(t, n, i) | (through == e) {
        return Err(Refusal::InUse);
    }
    Ok(())
}

// drop of the row e in slot i, which the caller holds.
fn drop_held(
    t: &mut [u32],
    n: usize,
    ps: &mut [u32],
    i: usize,
    through: u32,
    e: u32,
) -> Result<Answer, Refusal>
    requires { IsTables t.old × IsRecords ps.old × (n ≤ ROWS) × (i < ROWS) }
    ensures drops { DropsHeld t.old n ps.old i through e t.new
        ps.new (answer_in result) }
    ensures long { IsTables t.new × IsRecords ps.new }
{
    drop_refusal(t, n, i, through, e)?;
    drop_row(t, ps, e);
    Ok(Answer::Done)
}

// drop: 7 for a row that the caller does not hold; then the row's own refusals.
// Ruled out: a row goes that another comes from; the caller stays in the node of a row that went.
pub fn drop(t: &mut [u32], ps: &mut [u32], p: u32, e: u32) -> Answer
    requires { IsTables t.old × IsRecords ps.old × IsProcess p }
    ensures performs { Performs t.old ps.old (Call.Drop p e) t.new
        ps.new result }
    ensures long { IsTables t.new × IsRecords ps.new }
{
    let x = record_at(ps, (p - 1) as usize);
    let n = find::count_rows(t);
    let Some(i) = lookups::held_by(t, n, p, e) else {
        return Refusal::NotHeld.into();
    };
    drop_held(t, n, ps, i, x.through, e).unwrap_or_else(Answer::from)
}
