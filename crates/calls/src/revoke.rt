// revoke: the asker takes back what it lent and closes the request.
ghost use Rattle.rows.specs.vocabulary.Sizes.{IsTables, IsRecords};
ghost use Rattle.calls.specs.declared.Call.{Call};
ghost use Rattle.calls.specs.vocabulary.Performs.{Performs};
ghost use Rattle.calls.specs.vocabulary.Effects.{IsProcess};

use crate::{Answer, Refusal, lookups};
use closing::close::close_request;
use rows::find;
use rows::layout::Q_ASKER;

// revoke: 7 for what is no open request of the caller's.
// Ruled out: another process's request closes; a request that is fetched stays open.
pub fn revoke(t: &mut [u32], ps: &mut [u32], p: u32, q: u32) -> Answer
    requires { IsTables t.old × IsRecords ps.old × IsProcess p }
    ensures performs { Performs t.old ps.old (Call.Revoke p q) t.new
        ps.new result }
    ensures long { IsTables t.new × IsRecords ps.new }
{
    let m = find::count_requests(t);
    let Some(j) = lookups::request_among(t, m, q) else {
        return Refusal::NotHeld.into();
    };
    if t[Q_ASKER + j] != p {
        return Refusal::NotHeld.into();
    }
    close_request(t, ps, q);
    Answer::Done
}
