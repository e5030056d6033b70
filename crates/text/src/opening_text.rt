// The first pass over an opening text of any bytes: 2, 3, 4 and 6 (specs/Opening.antt).
ghost use Rattle.std.specs.Prelude.{◌≡◌, false, List, [], ◌∷◌, ◌≤◌, get_or};
ghost use Rattle.calls.specs.vocabulary.Performs.{refusal_in};
ghost use Rattle.text.specs.declared.Entry.{Entry};
ghost use Rattle.text.specs.Opening.{lines_of, Form, node_form, process_form, line_of, form_refusal, first_pass};
ghost use Rattle.text.specs.vocabulary.Sizes.{NODES};
ghost use Rattle.rows.specs.vocabulary.Sizes.{PROCESSES};
ghost use Rattle.text.specs.vocabulary.Openings.{Gives, RefusesNode, StepsNode, FormSteps, Steps, Ends};

use crate::call_line::is_process;
use crate::opening_lines::{line_end, read_line};
use crate::{Given, LineRead, NODE_PLACES, PROCESS_PLACES, Refused};
use calls::Refusal;
use rows::codes::is_node;

// (rule O15)
pub const MOST_ENTRIES: usize = 16;

// ---- what is given
// Nothing is given yet. Ruled out: node 1 is given; process 64 is.
pub fn none_given() -> Given
    ensures { Gives result [] }
{
    let nodes = [false; NODE_PLACES];
    let processes = [false; PROCESS_PLACES];
    Given { nodes, processes }
}

// Whether a number is given; no number past the run is.
pub fn is_given(run: &[bool], n: u32) -> bool
    ensures { result ≡ get_or run.now n false }
{
    let i = n as usize;
    if i < run.len() {
        return run[i];
    }
    false
}

// Nodes and processes in functions of their own, here and below: each marks another array, for other refusals.
// One more node is given.
fn with_node(g: Given, n: u32) -> Given
    requires { n ≤ NODES }
    ensures { (fs : List Form) (es : List Entry) → Gives g fs → Gives result (node_form n es ∷ fs) }
{
    let mut nodes = g.nodes;
    let processes = g.processes;
    nodes[n as usize] = true;
    Given { nodes, processes }
}

// One more process is given.
fn with_process(g: Given, p: u32, n: u32) -> Given
    requires { p ≤ PROCESSES }
    ensures { (fs : List Form) → Gives g fs → Gives result (process_form p n ∷ fs) }
{
    let nodes = g.nodes;
    let mut processes = g.processes;
    processes[p as usize] = true;
    Given { nodes, processes }
}

// ---- the first pass: 2, 3, 4 and 6
// The refusal of a node form after the forms given, the lowest number first.
fn node_refusal(g: Given, n: u32, count: usize, ranged: bool) -> Result<(), Refusal>
    ensures refused { RefusesNode g n count ranged (refusal_in result) }
    ensures within { refusal_in result ≡ 0 → n ≤ NODES }
{
    let good = is_node(n) & ranged;
    if !good {
        return Err(Refusal::OutOfRange);
    }
    let nodes = g.nodes;
    if is_given(&nodes, n) {
        return Err(Refusal::GivenTwice);
    }
    if MOST_ENTRIES < count {
        return Err(Refusal::TooMany);
    }
    Ok(())
}

// The refusal of a process form after the forms given.
fn process_refusal(g: Given, p: u32, n: u32) -> Result<(), Refusal>
    ensures refused { (fs : List Form) → Gives g fs → refusal_in result ≡ form_refusal fs (process_form p n) }
    ensures within { refusal_in result ≡ 0 → p ≤ PROCESSES }
{
    let good = is_process(p) & is_node(n);
    if !good {
        return Err(Refusal::OutOfRange);
    }
    let processes = g.processes;
    if is_given(&processes, p) {
        return Err(Refusal::GivenTwice);
    }
    Ok(())
}

// What a node form does after the forms given.
fn node_step(g: Given, n: u32, count: usize, ranged: bool) -> Result<Option<Given>, Refusal>
    ensures { StepsNode g n count ranged result }
{
    node_refusal(g, n, count, ranged)?;
    Ok(Some(with_node(g, n)))
}

// What a process form does after the forms given.
fn process_step(g: Given, p: u32, n: u32) -> Result<Option<Given>, Refusal>
    ensures { (fs : List Form) → Gives g fs → FormSteps fs (process_form p n) result }
{
    process_refusal(g, p, n)?;
    Ok(Some(with_process(g, p, n)))
}

// What one line does after the forms given: the first pass goes on with what is given now, or ends at `(open)`.
// Ruled out: a second form for a node is taken; `(open)` is a bad line.
pub fn pass_line(line: &[u8], g: Given) -> Result<Option<Given>, Refusal>
    ensures { (fs : List Form) → Gives g fs → Steps fs (line_of line.now) result }
{
    let l = read_line(line);
    match l {
        LineRead::Node(n, count, ranged) => node_step(g, n, count, ranged),
        LineRead::Process(p, n) => process_step(g, p, n),
        LineRead::Last => Ok(None),
        LineRead::Bad => Err(Refusal::BadForm),
    }
}

// The first line with 2, 3, 4 or 6, with the lowest of its numbers; or what is given up to `(open)`.
pub fn first_pass(text: &[u8]) -> Result<Given, Refused>
    ensures { Ends (first_pass [] 1 (lines_of text.now)) result }
{
    let mut at = 0;
    let mut n = 1;
    let mut g = none_given();
    // a while: at goes on by a whole line
    while at < text.len() {
        let e = line_end(text, at);
        match pass_line(&text[at..e], g) {
            Ok(Some(given)) => {
                g = given;
                at = e;
                n += 1;
            }
            Ok(None) => {
                return Ok(g);
            }
            Err(refusal) => {
                return Err(Refused {
                    number: refusal.into(),
                    line: n,
                });
            }
        }
    }
    Err(Refused {
        number: Refusal::BadForm.into(),
        line: n,
    })
}
