// What is printed: the joined text, or the refusal (specs/Written.antt).
ghost use Rattle.std.specs.Prelude.{◌≡◌, ◌≤◌, length};
ghost use Rattle.text.specs.vocabulary.Sizes.{REPLY};
ghost use Rattle.joining.specs.Written.{join};
ghost use Rattle.joining.specs.vocabulary.Lines.{Puts};
ghost use Rattle.joining.specs.vocabulary.Answers.{JOINED, RefusalOf, Ended, WritesAnswer};

use crate::feeding::{begin, feed, finish};
use crate::lines::write_slots;
use crate::{DIRECTORY, NotJoined, SLOTS, Written};
use calls::Answer;
use text::Reply;
use text::kept_lines::KEPT_LINE;
use text::replies::{hand_out, print, print_opening};

// The text of a refusal: with its line of one text, without of both.
fn refusal_text(refusal: NotJoined) -> Reply
    ensures { RefusalOf refusal result }
{
    match refusal {
        NotJoined::OfText(number, line) => print_opening(number, line),
        NotJoined::OfBoth(number) => print(Answer::Refused(number)),
    }
}

// The answer: a refusal, which ends it; or the joined text from a slot on, as many whole lines as `out` has room for.
// Ruled out: lines of the joined text after a refusal; a refusal of both texts with a line.
pub fn write_answer(
    first: &[u32],
    second: &[u32],
    v: Result<(), NotJoined>,
    from: usize,
    out: &mut [u8],
) -> Written
    requires { Ended first.now second.now v × (REPLY ≤ length out.old) }
    ensures { WritesAnswer first.now second.now v from out.old result out.new }
{
    match v {
        Ok(()) => write_slots(first, second, from, out),
        Err(refusal) => {
            let printed = hand_out(refusal_text(refusal), out);
            Written {
                printed,
                next: SLOTS,
            }
        }
    }
}

// Two opening texts, one after the other: what the program `join` prints of them, in front of `out`.
// Ruled out: a joined text that is cut; a byte after it that changes.
pub fn join_texts(texts: &[u8], out: &mut [u8]) -> usize
    requires { JOINED ≤ length out.old }
    ensures { Puts (join texts.now) out.old out.new result }
{
    let mut first = [0u32; DIRECTORY];
    let mut second = [0u32; DIRECTORY];
    let mut line = [0u8; KEPT_LINE];
    let j = begin(&mut first, &mut second);
    let fed = feed(&mut first, &mut second, &mut line, j, 0, texts);
    let v = finish(&first, &second, fed.joining);
    let written = write_answer(&first, &second, v, 0, out);
    written.printed
}
