// Bytes read by a pattern: `#` stands for a number, `@` for a word, any other byte for itself (specs/Patterns.antt).
ghost use Rattle.std.specs.Prelude.{◌≡◌, ◌≤◌};
ghost use Rattle.text.specs.Patterns.{is_digit, is_letter, grown, spelt, digits, letters, bad, began, counted};
ghost use Rattle.text.specs.Patterns.{number, word, itself, piece, pieces, form, whole};
ghost use Rattle.text.specs.vocabulary.Sizes.{GREATEST-READ, LONG-WORD};

use crate::{Read, Run};
use rows::codes::LAST_NEXT;

// the greatest number that is read: it stands for all above it (as, since a constant calls no From)
const GREATEST_READ: u64 = LAST_NEXT as u64;

// stands for all words of more than 8 letters
const LONG_WORD: u64 = 1099511627776;

// ---- bytes
fn is_digit(b: u8) -> bool
    ensures { result ≡ is_digit b }
{
    match b {
        b'0'..=b'9' => true,
        _ => false,
    }
}

fn is_letter(b: u8) -> bool
    ensures { result ≡ is_letter b }
{
    match b {
        b'a'..=b'z' => true,
        _ => false,
    }
}

// ---- runs of digits, runs of letters
// Twice, not once over a trait: a range is matched in the reader and a step is a sum, a line or two of each.
// What v is worth with one more digit. The bound stands in the step, so a number of any length never wraps.
fn grow(v: u64, b: u8) -> u64
    requires { (v ≤ GREATEST-READ) × (48 ≤ b) }
    ensures worth { result ≡ grown v b }
    ensures most { result ≤ GREATEST-READ }
{
    let n = v * 10 + (u64::from(b) - 48);
    if n <= GREATEST_READ {
        return n;
    }
    GREATEST_READ
}

// What the word v is worth with one more letter.
fn spell(v: u64, b: u8) -> u64
    requires { (v ≤ LONG-WORD) × (97 ≤ b) }
    ensures worth { result ≡ spelt v b }
    ensures most { result ≤ LONG-WORD }
{
    let n = v * 32 + (u64::from(b) - 96);
    if n < LONG_WORD {
        return n;
    }
    LONG_WORD
}

// The digits from a position on, and the position after them.
fn digits_at(s: &[u8], at: usize) -> Run
    ensures worth { result ≡ digits s.now at }
    ensures most { result.value ≤ GREATEST-READ }
{
    let mut v = 0;
    let mut i = at;
    // a while: i is the place after the run, also where the run begins past the end
    while i < s.len() {
        let b = s[i];
        if !is_digit(b) {
            return Run { value: v, next: i };
        }
        v = grow(v, b);
        i += 1;
    }
    Run { value: v, next: i }
}

// The letters from a position on, and the position after them.
fn letters_at(s: &[u8], at: usize) -> Run
    ensures { result ≡ letters s.now at }
{
    let mut v = 0;
    let mut i = at;
    // a while: i is the place after the run, also where the run begins past the end
    while i < s.len() {
        let b = s[i];
        if !is_letter(b) {
            return Run { value: v, next: i };
        }
        v = spell(v, b);
        i += 1;
    }
    Run { value: v, next: i }
}

// ---- pieces of a pattern
// What is left once a piece is not found.
fn no_form() -> Read
    ensures { result ≡ bad }
{
    Read {
        good: false,
        next: 0,
        word: 0,
        a: 0,
        b: 0,
        c: 0,
    }
}

// One more number read: it is the last of the three kept.
fn with_number(r: Read, n: Run) -> Read
    requires { n.value ≤ GREATEST-READ }
    ensures { result ≡ counted r n }
{
    Read {
        good: true,
        next: n.next,
        word: r.word,
        a: r.b,
        b: r.c,
        c: n.value as u32,
    }
}

// A number: 0 alone, or digits of which the first is not 0.
fn read_number(s: &[u8], r: Read) -> Read
    ensures { result ≡ number s.now r }
{
    let i = r.next;
    if s.len() <= i {
        return no_form();
    }
    let b = s[i];
    match b {
        b'0' => with_number(
            r,
            Run {
                value: 0,
                next: i + 1,
            },
        ),
        b'1'..=b'9' => with_number(r, digits_at(s, i)),
        _ => no_form(),
    }
}

// A word: letters, at least one.
fn read_word(s: &[u8], r: Read) -> Read
    ensures { result ≡ word s.now r }
{
    let i = r.next;
    if s.len() <= i {
        return no_form();
    }
    let b = s[i];
    match b {
        b'a'..=b'z' => {
            let w = letters_at(s, i);
            Read {
                good: true,
                next: w.next,
                word: w.value,
                a: r.a,
                b: r.b,
                c: r.c,
            }
        }
        _ => no_form(),
    }
}

// The byte p itself.
fn read_byte(s: &[u8], r: Read, p: u8) -> Read
    ensures { result ≡ itself s.now r p }
{
    let i = r.next;
    if i < s.len() {
        if s[i] == p {
            return Read {
                good: true,
                next: i + 1,
                word: r.word,
                a: r.a,
                b: r.b,
                c: r.c,
            };
        }
    }
    no_form()
}

// One piece of a pattern. After a piece that is not found nothing more is read.
fn read_piece(s: &[u8], r: Read, p: u8) -> Read
    ensures { result ≡ piece s.now r p }
{
    if !r.good {
        return r;
    }
    match p {
        b'#' => read_number(s, r),
        b'@' => read_word(s, r),
        _ => read_byte(s, r, p),
    }
}

// ---- whole patterns
// What the pattern t reads of s from a position on, up to a piece that is not found.
// Ruled out: `01` read for `#` and a `)`; a form read from bytes past the end of s.
pub fn read_form(s: &[u8], at: usize, t: &[u8]) -> Read
    ensures { result ≡ pieces s.now (began at) t.now }
{
    let mut r = Read {
        good: true,
        next: at,
        word: 0,
        a: 0,
        b: 0,
        c: 0,
    };
    for &p in t {
        r = read_piece(s, r, p);
        if !r.good {
            return r;
        }
    }
    r
}

// Whether the form was read and ends where s ends.
// Ruled out: yes where bytes follow the form, as a second line; yes for a form that was not read.
pub fn is_whole(s: &[u8], f: Read) -> bool
    ensures { result ≡ whole s.now f }
{
    f.good & (f.next == s.len())
}

// Whether `)` and the line feed stand at a position and s ends there.
// Ruled out: yes where the line feed is missing; yes where a second line follows.
pub fn ends_at(s: &[u8], at: usize) -> bool
    ensures { result ≡ whole s.now (form s.now at ")\n") }
{
    let f = read_form(s, at, b")\n");
    is_whole(s, f)
}
