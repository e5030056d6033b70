// An opening line by line: whether it is decided, its reply, and the stage after it.
ghost use Rattle.std.specs.Prelude.{◌≡◌, ◌<◌, length};
ghost use Rattle.feed.specs.Feeding.{undecided as undecided_text};
ghost use Rattle.feed.specs.vocabulary.Buffers.{StageOf};

use crate::Stage;
use crate::keeping::count_lines;
use text::opening_text::first_pass;

// Whether an opening waits for more lines: each line is a form that is not refused, and `(open)` has not come.
// Ruled out: an opening that is refused at its last line waits; one with `(open)` waits.
pub fn undecided(text: &[u8]) -> bool
    ensures { result ≡ undecided_text text.now }
{
    match first_pass(text) {
        Ok(given) => false,
        Err(refused) => count_lines(text) < refused.line,
    }
}

// The stage after an opening: calls, if its reply is `(ok 0)`.
// Ruled out: calls after a refused opening.
pub fn stage_after(out: &[u8]) -> Stage
    requires { 1 < length out.now }
    ensures { StageOf out.now result }
{
    if out[1] == b'o' {
        return Stage::Calls;
    }
    Stage::Over
}
