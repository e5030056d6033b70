// Answers printed: the text of an answer in a reply (specs/Answers.antt). Texts are put into the bytes of one reply,
// each where the one before it ends; a function that puts a text gives the place after it.
ghost use Rattle.std.specs.Prelude.{◌≡◌, [], ◌∷◌, map, ◌+◌, ◌*◌, ◌≤◌, ◌%◌, length};
ghost use Rattle.rows.specs.Lists.{nonzero};
ghost use Rattle.calls.specs.declared.Answer.TheVariants.{Fetched, Chained, ToldAll, Refused};
ghost use Rattle.calls.specs.Answers.{num, numbers_of, all_of};
ghost use Rattle.text.specs.Answers.{spaced, ok_text, printed};
ghost use Rattle.text.specs.vocabulary.Sizes.{REPLY, VALUE, TOLD};
ghost use Rattle.text.specs.vocabulary.Replies.{in_reply, Puts, HandsOut, numbers_text, told_text, opening_text};

use crate::{REPLY, Reply};
use calls::comes_all::{NO, YES};
use calls::{Answer, Four, Sixteen};

// the digits of a number at most
const DIGITS: usize = 10;

// a space and a number
const VALUE: usize = 11;

// ---- texts
// Ruled out: the last byte of the text left out; a byte after it that changes.
pub fn put_text(o: &mut [u8; REPLY], at: usize, t: &[u8]) -> usize
    requires { at + length t.now ≤ REPLY }
    ensures put { Puts o.old at t.now o.new result }
    ensures grown { result ≡ at + length t.now }
{
    // byte by byte, as Puts is proved: a reply after each byte
    for k in 0..t.len() {
        o[at + k] = t[k];
    }
    at + t.len()
}

// ---- numbers
// The byte of a number's last digit. Ruled out: the first digit; the digit itself for its byte.
pub fn last_digit(n: u64) -> u8
    ensures { result ≡ 48 + n % 10 }
{
    48 + (n % 10) as u8
}

// A space and a number: its digits from the last to the first, with the space before them.
// Ruled out: a number without its last digit; no space before it.
pub fn put_value(o: &mut [u8; REPLY], at: usize, n: u64) -> usize
    requires { at + VALUE ≤ REPLY }
    ensures put { Puts o.old at (spaced (num n ∷ [])) o.new result }
    ensures grown { result ≤ at + VALUE }
    ensures exact { result ≡ at + length (spaced (num n ∷ [])) }
{
    let mut value = [0u8; VALUE];
    let mut left = n;
    let mut i = DIGITS;
    // a while: it ends where the digits do, and i is the place of the first
    while (10 <= left) & (1 < i) {
        value[i] = last_digit(left);
        left = left / 10;
        i -= 1;
    }
    value[i] = last_digit(left);
    i -= 1;
    value[i] = b' ';
    put_text(o, at, &value[i..])
}

// A value that is listed; nothing for 0. `as`, here and below: with u64::from, which was tried, each answer of a
// proof carries its result too.
fn put_listed(o: &mut [u8; REPLY], at: usize, n: u32) -> usize
    requires { at + VALUE ≤ REPLY }
    ensures put { Puts o.old at (numbers_text (n ∷ [])) o.new result }
    ensures grown { result ≤ at + VALUE }
{
    if n == 0 {
        return at;
    }
    put_value(o, at, n as u64)
}

// Those of four values that are listed, in their order: of a request's items those that it still has.
// Four by four, here and below, as the answers have them (`Four` of calls).
fn put_items(o: &mut [u8; REPLY], at: usize, a: u32, b: u32, c: u32, d: u32) -> usize
    requires { at + 4 * VALUE ≤ REPLY }
    ensures put { Puts o.old at (numbers_text (a ∷ b ∷ c ∷ d ∷ [])) o.new result }
    ensures grown { result ≤ at + 4 * VALUE }
{
    let first = put_listed(o, at, a);
    let second = put_listed(o, first, b);
    let third = put_listed(o, second, c);
    put_listed(o, third, d)
}

// ---- answers
// A function for each answer, here and below: the first text and the last are the same, what stands between is not.
// `(ok n)`.
fn put_accepted(o: &mut [u8; REPLY], n: u64) -> usize
    ensures { Puts o.old 0 (ok_text (num n ∷ [])) o.new result }
{
    let begun = put_text(o, 0, b"(ok");
    let valued = put_value(o, begun, n);
    put_text(o, valued, b")\n")
}

// `(ok v ..)`: a request and its items.
fn put_fetched(o: &mut [u8; REPLY], v: u32, items: [u32; 4]) -> usize
    ensures { Puts o.old 0 (printed (Fetched v items)) o.new result }
{
    let begun = put_text(o, 0, b"(ok");
    let numbered = put_value(o, begun, v as u64);
    let listed = put_items(o, numbered, items[0], items[1], items[2], items[3]);
    put_text(o, listed, b")\n")
}

// `(ok n ..)`: the rows of a chain.
fn put_chained(o: &mut [u8; REPLY], a: Four, b: Four, c: Four) -> usize
    ensures { Puts o.old 0 (printed (Chained a b c)) o.new result }
{
    let begun = put_text(o, 0, b"(ok");
    let first = put_items(o, begun, a.first, a.second, a.third, a.fourth);
    let second = put_items(o, first, b.first, b.second, b.third, b.fourth);
    let third = put_items(o, second, c.first, c.second, c.third, c.fourth);
    put_text(o, third, b")\n")
}

// What is told of a pair: a space and 0, 1 or `-`; nothing where there is no pair.
fn put_told(o: &mut [u8; REPLY], at: usize, c: u32) -> usize
    requires { at + TOLD ≤ REPLY }
    ensures put { Puts o.old at (told_text (c ∷ [])) o.new result }
    ensures grown { result ≤ at + TOLD }
{
    match c {
        0 => at,
        NO => put_text(o, at, b" 0"),
        YES => put_text(o, at, b" 1"),
        _ => put_text(o, at, b" -"),
    }
}

// What is told of four pairs, in their order.
fn put_four(o: &mut [u8; REPLY], at: usize, f: Four) -> usize
    requires { at + 4 * TOLD ≤ REPLY }
    ensures put { Puts o.old at (told_text (numbers_of f)) o.new result }
    ensures grown { result ≤ at + 4 * TOLD }
{
    let first = put_told(o, at, f.first);
    let second = put_told(o, first, f.second);
    let third = put_told(o, second, f.third);
    put_told(o, third, f.fourth)
}

// What is told of sixteen pairs, in their order.
fn put_sixteen(o: &mut [u8; REPLY], at: usize, s: Sixteen) -> usize
    requires { at + 16 * TOLD ≤ REPLY }
    ensures put { Puts o.old at (told_text (all_of s)) o.new result }
    ensures grown { result ≤ at + 16 * TOLD }
{
    let first = put_four(o, at, s.first);
    let second = put_four(o, first, s.second);
    let third = put_four(o, second, s.third);
    put_four(o, third, s.fourth)
}

// `(ok 1 ..)`: what is told of pairs.
fn put_told_all(o: &mut [u8; REPLY], s: Sixteen) -> usize
    ensures { Puts o.old 0 (printed (ToldAll s)) o.new result }
{
    let begun = put_text(o, 0, b"(ok");
    let told = put_sixteen(o, begun, s);
    put_text(o, told, b")\n")
}

// `(no k)`; 0 is no refusal.
fn put_refusal(o: &mut [u8; REPLY], k: u32) -> usize
    ensures { Puts o.old 0 (printed (Refused k)) o.new result }
{
    if k == 0 {
        return put_text(o, 0, b"(ok)\n");
    }
    let begun = put_text(o, 0, b"(no");
    let numbered = put_value(o, begun, k as u64);
    put_text(o, numbered, b")\n")
}

// The text of an answer.
fn put_answer(o: &mut [u8; REPLY], a: Answer) -> usize
    ensures { Puts o.old 0 (printed a) o.new result }
{
    match a {
        Answer::Done => put_accepted(o, 0),
        Answer::Made(n) => put_accepted(o, n as u64),
        Answer::Fetched(v, items) => put_fetched(o, v, items),
        Answer::Told(t) => put_accepted(o, t as u64),
        Answer::Chained(a, b, c) => put_chained(o, a, b, c),
        Answer::ToldAll(s) => put_told_all(o, s),
        Answer::Refused(k) => put_refusal(o, k),
    }
}

// The text of an answer, in a reply; of an opening below: of two lines each, so no function that takes what puts it.
// Ruled out: a reply one byte short, without its line feed; a 0 printed for an item that is no longer listed.
pub fn print(a: Answer) -> Reply
    ensures { result ≡ in_reply (printed a) }
{
    let mut bytes = [0u8; REPLY];
    let length = put_answer(&mut bytes, a);
    Reply { bytes, length }
}

// The text of an opening's answer.
fn put_opening(o: &mut [u8; REPLY], k: u32, line: usize) -> usize
    ensures { Puts o.old 0 (opening_text k line) o.new result }
{
    if k == 0 {
        return put_accepted(o, 0);
    }
    let begun = put_text(o, 0, b"(no");
    let numbered = put_value(o, begun, k as u64);
    let lined = put_value(o, numbered, line as u64);
    put_text(o, lined, b")\n")
}

// A number, 0 for none: opening_text, which the contract names, has it, and 1 is of no text.
// The answer of an opening: `(ok 0)`, or `(no k line)` for the refusal k.
// Ruled out: a refusal without its line; `(ok 0)` for a refused opening.
pub fn print_opening(k: u32, line: usize) -> Reply
    ensures { result ≡ in_reply (opening_text k line) }
{
    let mut bytes = [0u8; REPLY];
    let length = put_opening(&mut bytes, k, line);
    Reply { bytes, length }
}

// ---- a reply handed out
// Writes a reply to the front of the run lent for it, and gives its length; the bytes after it stay.
// Ruled out: a byte after the reply that changes; a reply one byte short.
pub fn hand_out(r: Reply, out: &mut [u8]) -> usize
    requires { (r.length ≤ REPLY) × (REPLY ≤ length out.old) }
    ensures { HandsOut r out.old out.new result }
{
    let n = r.length;
    let bytes = r.bytes;
    out[..n].copy_from_slice(&bytes[..n]);
    n
}
