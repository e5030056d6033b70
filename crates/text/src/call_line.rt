// A call line of any bytes: the call that it asks for, or the refusal of its text (specs/CallLines.antt).
ghost use Rattle.std.specs.Prelude.{◌≡◌, map, ◌<◌};
ghost use Rattle.rows.specs.Lists.{member};
ghost use Rattle.calls.specs.Answers.{refusal_number};
ghost use Rattle.text.specs.declared.Reading.TheVariants.{Refused};
ghost use Rattle.text.specs.CallLines.{is_process, is_number, ranged, simple, simple_form, chain_form};
ghost use Rattle.text.specs.CallLines.{Gathered, gathered, item_of, packed, judged, comes_all, judged_pairs};
ghost use Rattle.text.specs.CallLines.{reading_of};
ghost use Rattle.text.specs.vocabulary.Sizes.{GROUPS};
ghost use Rattle.text.specs.vocabulary.Groups.{seen_with, groups_of, groups_from, answer_or_chain, other_call, c_next};
ghost use Rattle.text.specs.vocabulary.Groups.{head_of, JudgesGroups, groups_form};

use crate::patterns::{ends_at, is_whole, read_form};
use crate::{Groups, Head, Read, Reader, Reading, Seen};
use calls::numbers::sixteen_from;
use calls::{Call, Item, Refusal};
use rows::codes::{ALL_RIGHTS, LAST_NUMBER, LAST_PROCESS};

const MOST_ITEMS: usize = 4;

const MOST_PAIRS: usize = 16;

// groups in brackets: more than any line has
pub const GROUPS: usize = 64;

// the bytes of the longest line, with its line feed
pub const LONGEST_LINE: usize = 256;

// the codes of the words: a letter is worth 1 to 26 in base 32
const GO: u64 = 239;

const HOLD: u64 = 277892;

const REGISTER: u64 = 624088961202;

const DROP: u64 = 150000;

const PORT: u64 = 540244;

const CLOSE: u64 = 3554917;

const FETCH: u64 = 6475880;

const REVOKE: u64 = 609959269;

// ---- refusals
// A line that its text alone refuses. Ruled out: the number of another refusal.
impl From<Refusal> for Reading {
    ghost from_gives = { λ r x. x ≡ Refused (refusal_number r) };

    fn from(r: Refusal) -> Reading {
        Reading::Refused(u32::from(r))
    }
}

// ---- ranges
// Whether a number is a process's. Ruled out: yes for 0; yes for 65.
pub fn is_process(p: u32) -> bool
    ensures { result ≡ is_process p }
{
    (1 <= p) & (p <= LAST_PROCESS)
}

fn is_number(e: u32) -> bool
    ensures { result ≡ is_number e }
{
    (1 <= e) & (e <= LAST_NUMBER)
}

// A call whose numbers are in range, or 3.
fn if_ranged(in_range: bool, c: Call) -> Reading
    ensures { result ≡ ranged in_range c }
{
    if in_range {
        Reading::Asks(c)
    } else {
        Refusal::OutOfRange.into()
    }
}

// ---- chain
// `(chain e)`; any other form is a bad one.
fn chain_form(line: &[u8]) -> Reading
    ensures { result ≡ chain_form line.now }
{
    let f = read_form(line, 0, b"(chain #)\n");
    if is_whole(line, f) {
        let good = is_number(f.c);
        return if_ranged(good, Call::Chain(f.c));
    }
    Refusal::BadForm.into()
}

// ---- answer
// `(p answer v x)`, else a chain.
fn answer_form(line: &[u8]) -> Reading
    ensures { result ≡ answer_or_chain line.now }
{
    let f = read_form(line, 0, b"(# answer # #)\n");
    if is_whole(line, f) {
        let good = is_process(f.a) & (is_number(f.b) & (f.c <= 1));
        return if_ranged(good, Call::Answer(f.a, f.b, f.c == 1));
    }
    chain_form(line)
}

// ---- calls of one number
// The call of a word; any other word is a bad form.
fn simple_call(w: u64, p: u32, e: u32) -> Reading
    ensures { result ≡ simple w p e }
{
    let caller = is_process(p);
    let good = caller & is_number(e);
    match w {
        GO => if_ranged(caller & (e <= LAST_NUMBER), Call::Go(p, e)),
        HOLD => if_ranged(good, Call::Hold(p, e)),
        REGISTER => if_ranged(good, Call::Register(p, e)),
        DROP => if_ranged(good, Call::Drop(p, e)),
        PORT => if_ranged(good, Call::Port(p, e)),
        CLOSE => if_ranged(good, Call::Close(p, e)),
        FETCH => if_ranged(good, Call::Fetch(p, e)),
        REVOKE => if_ranged(good, Call::Revoke(p, e)),
        _ => Refusal::BadForm.into(),
    }
}

// `(p word e)`, else an answer or a chain.
fn simple_form(line: &[u8]) -> Reading
    ensures { result ≡ simple_form line.now (answer_or_chain line.now) }
{
    let f = read_form(line, 0, b"(# @ #)\n");
    if !is_whole(line, f) {
        return answer_form(line);
    }
    let w = f.word;
    simple_call(w, f.b, f.c)
}

// `(comes e q)`, else a call of one number.
fn comes_form(line: &[u8]) -> Reading
    ensures { result ≡ other_call line.now }
{
    let f = read_form(line, 0, b"(comes # #)\n");
    if is_whole(line, f) {
        let good = is_number(f.b) & is_number(f.c);
        return if_ranged(good, Call::Comes(f.b, f.c));
    }
    simple_form(line)
}

// ---- groups of two numbers
// Whether n is one of the numbers. Ruled out: the last one is not looked at; yes for any number.
pub fn is_named(ns: &[u32], n: u32) -> bool
    ensures { result ≡ member n ns.now }
{
    ns.contains(&n)
}

// What is seen with one more group: every one is looked at for 3 and 4, also past the fourth or the 16th.
fn see_group(s: Seen, f: Read, named: bool) -> Seen
    requires { s.count < GROUPS }
    ensures { result ≡ seen_with s f named }
{
    let good = is_number(f.b);
    Seen {
        next: f.next,
        count: s.count + 1,
        items: s.items & (good & (f.c <= ALL_RIGHTS)),
        pairs: s.pairs & (good & is_number(f.c)),
        apart: s.apart & !named,
    }
}

// The groups of their parts.
fn groups_of(s: Seen, firsts: [u32; GROUPS], seconds: [u32; GROUPS]) -> Groups
    ensures { result ≡ groups_of s firsts seconds }
{
    Groups {
        next: s.next,
        count: s.count,
        items: s.items,
        pairs: s.pairs,
        apart: s.apart,
        firsts,
        seconds,
    }
}

// The groups from a position on.
fn gather(line: &[u8], at: usize) -> Groups
    ensures { result ≡ groups_from (gathered GROUPS line.now at) }
{
    let mut firsts = [0u32; GROUPS];
    let mut seconds = [0u32; GROUPS];
    let mut s = Seen {
        next: at,
        count: 0,
        items: true,
        pairs: true,
        apart: true,
    };
    for n in 0..GROUPS {
        let f = read_form(line, s.next, b" (# #)");
        if !f.good {
            return groups_of(s, firsts, seconds);
        }
        let named = is_named(&firsts[0..n], f.b);
        firsts[n] = f.b;
        seconds[n] = f.c;
        s = see_group(s, f, named);
    }
    groups_of(s, firsts, seconds)
}

// The first four groups as items, no items after the last.
fn first_four(g: Groups) -> [Item; MOST_ITEMS]
    ensures { (x : Gathered) → g ≡ groups_from x → result ≡ packed (map item_of x.groups) }
{
    let rows = g.firsts;
    let rights = g.seconds;
    [
        Item {
            row: rows[0],
            rights: rights[0],
        },
        Item {
            row: rows[1],
            rights: rights[1],
        },
        Item {
            row: rows[2],
            rights: rights[2],
        },
        Item {
            row: rows[3],
            rights: rights[3],
        },
    ]
}

// An ask of its caller, its client end and its items: 3, then 4, then too many items.
fn judge(p: u32, c: u32, g: Groups) -> Reading
    ensures { (x : Gathered) → g ≡ groups_from x → result ≡ judged p c (map item_of x.groups) }
{
    let good = is_process(p) & (is_number(c) & g.items);
    if !good {
        return Refusal::OutOfRange.into();
    }
    if !g.apart {
        return Refusal::GivenTwice.into();
    }
    if MOST_ITEMS < g.count {
        return Reading::Crowded(p);
    }
    Reading::Asks(Call::Ask(p, c, first_four(g)))
}

// The first sixteen groups as pairs, 0 after the last.
fn first_sixteen(g: Groups) -> Call
    ensures { (x : Gathered) → g ≡ groups_from x → result ≡ comes_all x.groups }
{
    let rows = g.firsts;
    let requests = g.seconds;
    Call::ComesAll(sixteen_from(&rows), sixteen_from(&requests))
}

// A comesall of its pairs: 2 for none, then 3, then too many pairs.
fn judge_pairs(g: Groups) -> Reading
    ensures { (x : Gathered) → g ≡ groups_from x → result ≡ judged_pairs x.groups }
{
    if g.count == 0 {
        return Refusal::BadForm.into();
    }
    if !g.pairs {
        return Refusal::OutOfRange.into();
    }
    if MOST_PAIRS < g.count {
        return Refusal::TooMany.into();
    }
    Reading::Asks(first_sixteen(g))
}

// ---- lines that have groups
// Whether the byte after a position is a `c`, as in a comesall.
fn is_c_next(line: &[u8], at: usize) -> bool
    ensures { result ≡ c_next line.now at }
{
    if line.len() <= at {
        return false;
    }
    let i = at + 1;
    if line.len() <= i {
        return false;
    }
    line[i] == b'c'
}

// The head of a line that has groups, at a position: its second byte tells whether it can be that of a comesall.
fn groups_head(line: &[u8], at: usize) -> Head
    ensures { result ≡ head_of line.now at }
{
    if is_c_next(line, at) {
        let f = read_form(line, at, b"(comesall");
        return Head {
            good: f.good,
            next: f.next,
            asks: false,
            caller: 0,
            port: 0,
        };
    }
    let f = read_form(line, at, b"(# ask #");
    Head {
        good: f.good,
        next: f.next,
        asks: true,
        caller: f.b,
        port: f.c,
    }
}

// Head and groups read as an ask or as a comesall if the line ends after them, else as another form.
fn groups_if_ended(line: &[u8], h: Head, g: Groups, ended: bool) -> Reading
    ensures { JudgesGroups line.now h g ended result }
{
    if !(h.good & ended) {
        return comes_form(line);
    }
    if h.asks {
        return judge(h.caller, h.port, g);
    }
    judge_pairs(g)
}

// `(p ask c (e r) ..)` or `(comesall (e q) ..)`, else another form: head, groups and end, one after the other.
fn groups_form(line: &[u8]) -> Reading
    ensures { result ≡ groups_form line.now }
{
    let mut r = Reader { line, at: 0 };
    let h = groups_head(r.line, r.at);
    r.at = h.next;
    let g = gather(r.line, r.at);
    r.at = g.next;
    let ended = ends_at(r.line, r.at);
    groups_if_ended(r.line, h, g, ended)
}

// The call that a line of any bytes asks for, or the refusal of its text.
// Ruled out: 6 for five items of which two are the same (4 comes first); a call for a line that another line follows.
pub fn read_call(line: &[u8]) -> Reading
    ensures { result ≡ reading_of line.now }
{
    if LONGEST_LINE < line.len() {
        return Refusal::BadForm.into();
    }
    groups_form(line)
}
