// The entry point call: one line of any bytes on tables of any content.
ghost use Rattle.std.specs.Prelude.{◌≡◌};
ghost use Rattle.rows.specs.vocabulary.Sizes.{IsTables, IsRecords};
ghost use Rattle.calls.specs.Calls.{caller_of};
ghost use Rattle.calls.specs.vocabulary.Performs.{CallerInRange};
ghost use Rattle.text.specs.declared.Reading.TheVariants.{Asks};
ghost use Rattle.text.specs.Entry.{answered, call_entry};
ghost use Rattle.entry.specs.vocabulary.Entries.{TellsUnlisted, AnswersOn};
ghost use Rattle.entry.specs.vocabulary.Entries.{AnswersCrowded, ReadInRange, Replies};

use calls::perform::perform;
use calls::{Answer, Call, Refusal};
use rows::records;
use soundness::sound;
use text::call_line::read_call;
use text::replies::print;
use text::{Reading, Reply};

// ---- the caller
// The caller of a call; 0 for comes, chain and comesall, which have none: a number, as caller_of of the definitions.
fn caller_of(c: Call) -> u32
    ensures { result ≡ caller_of c }
{
    match c {
        Call::Go(p, e) => p,
        Call::Hold(p, s) => p,
        Call::Register(p, e) => p,
        Call::Drop(p, e) => p,
        Call::Port(p, e) => p,
        Call::Close(p, e) => p,
        Call::Ask(p, e, items) => p,
        Call::Fetch(p, e) => p,
        Call::Answer(p, e, served) => p,
        Call::Revoke(p, q) => p,
        Call::Comes(e, q) => 0,
        Call::Chain(e) => 0,
        Call::ComesAll(es, qs) => 0,
    }
}

// Whether the call has a caller that is not listed.
fn is_unlisted(p: &[u32], c: Call) -> bool
    requires { IsRecords p.now }
    ensures { TellsUnlisted p.now c result }
{
    let n = caller_of(c);
    (0 < n) & !records::listed(p, n)
}

// ---- a call that was read
// A call of any caller: 5, or what the call answers.
fn answer_call(t: &mut [u32], p: &mut [u32], c: Call) -> Answer
    requires { IsTables t.old × IsRecords p.old × CallerInRange c }
    ensures { AnswersOn t.old p.old (λ st. answered st (Asks c)) t.new
        p.new result }
{
    if is_unlisted(p, c) {
        return Refusal::NotListed.into();
    }
    perform(t, p, c)
}

// An ask of a caller with too many items: 5 comes before 6.
fn crowded(p: &[u32], caller: u32) -> Answer
    requires { IsRecords p.now }
    ensures { AnswersCrowded p.now caller result }
{
    if records::listed(p, caller) {
        return Refusal::TooMany.into();
    }
    Refusal::NotListed.into()
}

// What a line that was read is answered, on sound tables.
fn answer(t: &mut [u32], p: &mut [u32], line: Reading) -> Answer
    requires { IsTables t.old × IsRecords p.old × ReadInRange line }
    ensures { AnswersOn t.old p.old (λ st. answered st line) t.new
        p.new result }
{
    match line {
        Reading::Asks(c) => answer_call(t, p, c),
        Reading::Crowded(caller) => crowded(p, caller),
        Reading::Refused(k) => Answer::Refused(k),
    }
}

// ---- the entry point
// One call line of any bytes, on words of any content and any length.
// Ruled out: 2 for a bad line on tables that are not sound; a word changed by a call that is refused.
pub fn call(tables: &mut [u32], processes: &mut [u32], line: &[u8]) -> Reply
    ensures { Replies (call_entry tables.old processes.old line.now) result
        tables.new processes.new }
{
    if !sound::sound(tables, processes) {
        return print(Refusal::Unsound.into());
    }
    let reading = read_call(line);
    let answered = answer(tables, processes, reading);
    print(answered)
}
