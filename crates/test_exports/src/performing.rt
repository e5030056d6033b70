// A call on both runs, the call and its answer in words. Where a length or the caller does not fit, nothing changes.
ghost use Rattle.std.specs.Prelude.{◌≡◌, ◌∷◌, ◌+◌, ◌≤◌};
ghost use Rattle.calls.specs.Answers.{all_of};
ghost use Rattle.questions.specs.vocabulary.Pairs.{PAIRS};
ghost use Rattle.test_exports.specs.vocabulary.Calls.{CALL_WORDS, sixteen_at};
ghost use Rattle.test_exports.specs.vocabulary.Calls.{items_of_words, call_of_words, call_fits, words_of_answer};
ghost use Rattle.test_exports.specs.vocabulary.Calls.{PerformsWords, AllStay};

use calls::perform::perform;
use calls::{Answer, Call, Item, Sixteen, numbers};
use rows::codes::LAST_PROCESS;
use rows::layout::{RECORDS, TABLES};

// a call: its code, its two numbers (of chain its row, and one that is not looked at), row and rights of each item of
// an ask, or 1 for a request served; of comesall its code, the rows of the pairs, their requests
pub const CALL_WORDS: usize = 33;

// an answer: its code and its numbers
pub const ANSWER_WORDS: usize = 17;

// where the rows of the pairs begin, and their requests
const ROWS_AT: usize = 1;

const REQUESTS_AT: usize = 17;

// the code of comes: from it on calls have no caller
const COMES: u32 = 10;

fn items_of(w: &[u32; CALL_WORDS]) -> [Item; 4]
    ensures { result ≡ items_of_words w.now }
{
    [
        Item {
            row: w[3],
            rights: w[4],
        },
        Item {
            row: w[5],
            rights: w[6],
        },
        Item {
            row: w[7],
            rights: w[8],
        },
        Item {
            row: w[9],
            rights: w[10],
        },
    ]
}

// Sixteen of the words, from a position on.
fn sixteen_at(w: &[u32; CALL_WORDS], at: usize) -> Sixteen
    requires { at + PAIRS ≤ CALL_WORDS }
    ensures { result ≡ sixteen_at w.now at }
{
    Sixteen {
        first: numbers::four_from(w, at),
        second: numbers::four_from(w, at + 4),
        third: numbers::four_from(w, at + 8),
        fourth: numbers::four_from(w, at + 12),
    }
}

// The call of its words; a code above that of comesall stands for comesall too.
fn call_of(w: &[u32; CALL_WORDS]) -> Call
    ensures { result ≡ call_of_words w.now }
{
    let code = w[0];
    let p = w[1];
    let e = w[2];
    let served = w[3] == 1;
    match code {
        0 => Call::Go(p, e),
        1 => Call::Hold(p, e),
        2 => Call::Register(p, e),
        3 => Call::Drop(p, e),
        4 => Call::Port(p, e),
        5 => Call::Close(p, e),
        6 => Call::Ask(p, e, items_of(w)),
        7 => Call::Fetch(p, e),
        8 => Call::Answer(p, e, served),
        9 => Call::Revoke(p, e),
        10 => Call::Comes(p, e),
        11 => Call::Chain(p),
        _ => Call::ComesAll(sixteen_at(w, ROWS_AT), sixteen_at(w, REQUESTS_AT)),
    }
}

// Whether the call has no caller, or a process's number for it.
fn caller_fits(w: &[u32; CALL_WORDS]) -> bool
    ensures { result ≡ call_fits w.now }
{
    let p = w[1];
    (COMES <= w[0]) | ((1 <= p) & (p <= LAST_PROCESS))
}

// What is told of sixteen pairs, after its code.
fn words_told(s: Sixteen) -> [u32; ANSWER_WORDS]
    ensures { result ≡ 6 ∷ all_of s }
{
    let a = s.first;
    let b = s.second;
    let c = s.third;
    let d = s.fourth;
    [
        6, a.first, a.second, a.third, a.fourth, b.first, b.second, b.third, b.fourth, c.first,
        c.second, c.third, c.fourth, d.first, d.second, d.third, d.fourth,
    ]
}

fn words_of(a: Answer) -> [u32; ANSWER_WORDS]
    ensures { result ≡ words_of_answer a }
{
    match a {
        Answer::Done => [0, 0, 0, 0, 0, 0, 0, 0, 0, 0, 0, 0, 0, 0, 0, 0, 0],
        Answer::Made(n) => [1, n, 0, 0, 0, 0, 0, 0, 0, 0, 0, 0, 0, 0, 0, 0, 0],
        Answer::Fetched(v, is) => [
            2, v, is[0], is[1], is[2], is[3], 0, 0, 0, 0, 0, 0, 0, 0, 0, 0, 0,
        ],
        Answer::Told(b) => {
            if b {
                [3, 1, 0, 0, 0, 0, 0, 0, 0, 0, 0, 0, 0, 0, 0, 0, 0]
            } else {
                [3, 0, 0, 0, 0, 0, 0, 0, 0, 0, 0, 0, 0, 0, 0, 0, 0]
            }
        }
        Answer::Chained(a, b, c) => [
            5, a.first, a.second, a.third, a.fourth, b.first, b.second, b.third, b.fourth, c.first,
            c.second, c.third, c.fourth, 0, 0, 0, 0,
        ],
        Answer::ToldAll(s) => words_told(s),
        Answer::Refused(k) => [4, k, 0, 0, 0, 0, 0, 0, 0, 0, 0, 0, 0, 0, 0, 0, 0],
    }
}

#[unsafe(no_mangle)]
pub extern "C" fn kernel_perform(
    t: &mut [u32],
    p: &mut [u32],
    w: &[u32; CALL_WORDS],
    out: &mut [u32; ANSWER_WORDS],
)
    ensures done { PerformsWords t.old p.old w.now
        t.new p.new out.new }
    ensures other { AllStay t.old p.old w.now out.old
        t.new p.new out.new }
{
    if t.len() != TABLES {
        return;
    }
    if p.len() != RECORDS {
        return;
    }
    if !caller_fits(w) {
        return;
    }
    let c = call_of(w);
    let answer = perform(t, p, c);
    *out = words_of(answer);
}
