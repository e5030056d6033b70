// Two texts fed in parts: a line that has ended, a part, the end of the input (specs/Feeding.antt).
ghost use Rattle.std.specs.Prelude.{◌≡◌, [], ◌≤◌, length};
ghost use Rattle.joining.specs.Feeding.{in_first, line_fed};
ghost use Rattle.calls.specs.Answers.{refusal_number};
ghost use Rattle.joining.specs.declared.NotJoined.TheVariants.{OfBoth};
ghost use Rattle.joining.specs.vocabulary.Directories.{DIRECTORY};
ghost use Rattle.joining.specs.vocabulary.Lines.{SLOTS};
ghost use Rattle.joining.specs.vocabulary.Reading.{Holds, Ready, Moves, ReadyTexts, FeedsTexts, ReadsOn, Finishes};
ghost use Rattle.joining.specs.vocabulary.Reading.{is_going, SecondBegins, BothRead, AfterLine};

use crate::reading::read_text_line;
use crate::refusals::refusal_of;
use crate::{Fed, Joining, NotJoined, Stage};
use calls::Refusal;
use text::Given;
use text::kept_lines::keep_byte;
use text::opening_text::none_given;
use text::opening_words::clear;

// ---- the beginning
// Nothing is read yet, and the directories hold nothing, whatever stood in them.
// Ruled out: a word of another text is left; lines count from 0.
pub fn begin(first: &mut [u32], second: &mut [u32]) -> Joining
    requires { (length first.old ≡ DIRECTORY) × (length second.old ≡ DIRECTORY) }
    ensures { Holds (in_first []) result first.new second.new }
{
    clear(first);
    clear(second);
    Joining {
        stage: Stage::First,
        refusal: None,
        number: 1,
        given: none_given(),
    }
}

// ---- a line has ended
// Whether more is read.
pub fn is_going(j: Joining) -> bool
    ensures { result ≡ is_going j.stage }
{
    let stage = j.stage;
    match stage {
        Stage::First => true,
        Stage::Second => true,
        Stage::Over => false,
    }
}

// The first text has ended: the second begins, and its lines count from 1.
fn second_begins() -> Joining
    ensures { SecondBegins result }
{
    Joining {
        stage: Stage::Second,
        refusal: None,
        number: 1,
        given: none_given(),
    }
}

// The second text has ended: both are read.
fn both_read(given: Given) -> Joining
    ensures { BothRead result }
{
    Joining {
        stage: Stage::Over,
        refusal: None,
        number: 0,
        given,
    }
}

// After a line of a text, before which its forms gave `before`: it is taken, refused, or ends the text.
fn after_line(
    stage: Stage,
    number: usize,
    before: Given,
    step: Result<Option<Given>, Refusal>,
    ended: Joining,
) -> Joining
    requires { number ≤ SLOTS }
    ensures { AfterLine stage number before step ended result }
{
    match step {
        Ok(Some(given)) => Joining {
            stage,
            refusal: None,
            number: number + 1,
            given,
        },
        Ok(None) => ended,
        Err(refusal) => Joining {
            stage: Stage::Over,
            refusal: Some(refusal.into()),
            number,
            given: before,
        },
    }
}

// The line begun has ended: it is read into the directory of its text.
// Ruled out: a line of the second text read into the first's directory; a line counted over both texts.
pub fn line_ended(first: &mut [u32], second: &mut [u32], line: &[u8], j: Joining) -> Joining
    requires { Ready j first.old second.old }
    ensures { Moves (λ p. line_fed p line.now)
        j first.old second.old result first.new second.new }
{
    let stage = j.stage;
    let given = j.given;
    match stage {
        Stage::First => {
            let step = read_text_line(first, line, given);
            after_line(Stage::First, j.number, given, step, second_begins())
        }
        Stage::Second => {
            let step = read_text_line(second, line, given);
            after_line(Stage::Second, j.number, given, step, both_read(given))
        }
        Stage::Over => j,
    }
}

// ---- a part
// The bytes of a part, until reading is over; n bytes of the line begun stand in front of `line`.
// Ruled out: a byte that is left out or fed twice; a line feed that does not end the line.
pub fn feed(
    first: &mut [u32],
    second: &mut [u32],
    line: &mut [u8],
    j: Joining,
    n: usize,
    part: &[u8],
) -> Fed
    requires { ReadyTexts j n line.old first.old second.old }
    ensures fed { FeedsTexts part.now j n line.old first.old second.old
        result line.new first.new second.new }
    ensures ready { ReadyTexts result.joining result.line line.new first.new second.new }
    ensures reads { ReadsOn part.now result }
{
    let mut here = j;
    let mut kept = n;
    let mut i = 0;
    let mut going = is_going(here);
    // a while of two conditions: with a for the answer is made in two places, where reading is over and at the end
    while going && i < part.len() {
        let b = part[i];
        kept = keep_byte(line, kept, b);
        if b == b'\n' {
            here = line_ended(first, second, &line[..kept], here);
            going = is_going(here);
            kept = 0;
        }
        i += 1;
    }
    Fed {
        joining: here,
        line: kept,
        next: i,
    }
}

// ---- the end
// What both texts together are refused for has no line.
impl From<Refusal> for NotJoined {
    ghost from_gives = { λ r n. n ≡ OfBoth (refusal_number r) };

    fn from(r: Refusal) -> NotJoined {
        NotJoined::OfBoth(r.into())
    }
}

// The input has ended, or reading is over: the refusal of a text with its line, or of both without.
// Ruled out: 5 for a text that lacks its `(open)`; a line for a refusal of both texts.
pub fn finish(first: &[u32], second: &[u32], j: Joining) -> Result<(), NotJoined>
    requires { Ready j first.now second.now }
    ensures { Finishes j first.now second.now result }
{
    if is_going(j) {
        let number = Refusal::BadForm.into();
        return Err(NotJoined::OfText(number, j.number));
    }
    if let Some(number) = j.refusal {
        return Err(NotJoined::OfText(number, j.number));
    }
    refusal_of(first, second)?;
    Ok(())
}
