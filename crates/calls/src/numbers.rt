// Numbers that a call or an answer holds, four or sixteen together: taken from a run of words, and spread into one.
ghost use Rattle.std.specs.Prelude.{◌≡◌, ◌+◌, ◌≤◌, length};
ghost use Rattle.calls.specs.Answers.{all_of};
ghost use Rattle.calls.specs.Calls.{four_from, sixteen_from};
ghost use Rattle.questions.specs.vocabulary.Pairs.{PAIRS};

use crate::{Four, Sixteen};

// Four of the numbers, from a position on.
pub fn four_from(ns: &[u32], at: usize) -> Four
    requires { at + 4 ≤ length ns.now }
    ensures { result ≡ four_from ns.now at }
{
    Four {
        first: ns[at],
        second: ns[at + 1],
        third: ns[at + 2],
        fourth: ns[at + 3],
    }
}

// The first sixteen.
pub fn sixteen_from(ns: &[u32]) -> Sixteen
    requires { PAIRS ≤ length ns.now }
    ensures { result ≡ sixteen_from ns.now }
{
    Sixteen {
        first: four_from(ns, 0),
        second: four_from(ns, 4),
        third: four_from(ns, 8),
        fourth: four_from(ns, 12),
    }
}

// All sixteen, one after the other.
pub fn spread(s: Sixteen) -> [u32; 16]
    ensures { result ≡ all_of s }
{
    let a = s.first;
    let b = s.second;
    let c = s.third;
    let d = s.fourth;
    [
        a.first, a.second, a.third, a.fourth, b.first, b.second, b.third, b.fourth, c.first,
        c.second, c.third, c.fourth, d.first, d.second, d.third, d.fourth,
    ]
}
