// A call on the lent words: each of the thirteen by its own function.
ghost use Rattle.rows.specs.vocabulary.Sizes.{IsTables, IsRecords};
ghost use Rattle.calls.specs.vocabulary.Performs.{CallerInRange, Performs, StaysIfRefused};

use crate::{
    Answer, Call, answering, ask, chain, comes, comes_all, directories, fetch, ports, revoke,
};

// The call is answered, and words and records become what the definition makes of them.
// Ruled out: a word changes where the call is refused; a call does what another one's definition says.
pub fn perform(t: &mut [u32], ps: &mut [u32], c: Call) -> Answer
    requires { IsTables t.old × IsRecords ps.old × CallerInRange c }
    ensures performs { Performs t.old ps.old c t.new ps.new result }
    ensures stays { StaysIfRefused t.old ps.old c t.new ps.new result }
    ensures long { IsTables t.new × IsRecords ps.new }
{
    match c {
        Call::Go(p, e) => directories::go(t, ps, p, e),
        Call::Hold(p, s) => directories::hold(t, ps, p, s),
        Call::Register(p, e) => directories::register(t, ps, p, e),
        Call::Drop(p, e) => directories::drop(t, ps, p, e),
        Call::Port(p, e) => ports::port(t, p, e),
        Call::Close(p, e) => ports::close(t, ps, p, e),
        Call::Ask(p, e, items) => ask::ask(t, p, e, items),
        Call::Fetch(p, e) => fetch::fetch(t, p, e),
        Call::Answer(p, e, served) => answering::answer(t, ps, p, e, served),
        Call::Revoke(p, q) => revoke::revoke(t, ps, p, q),
        Call::Comes(e, q) => comes::comes(t, e, q),
        Call::Chain(e) => chain::chain(t, e),
        Call::ComesAll(es, qs) => comes_all::comes_all(t, es, qs),
    }
}
