ghost use Rattle.pool.specs.Calls.{perform};
ghost use Rattle.pool.specs.Pools.{Performs, LeavesStore, rule_of};
ghost use Rattle.runner.specs.Runs.{StaysAlone};

use calls::answer::{Answer, Reply};
use calls::call::Call;
use pool::pool::Pool;
use rules::house::HouseRule;
use store::writing::WritingStore;

/// Makes one call on the pool, whichever of the nine it is, and answers what that call answers. Whatever opening and calls led to
/// this pool, every edit in them is as if made alone, and stays so with this call.
pub fn perform<S: WritingStore, R: HouseRule>(pool: &mut Pool<S, R>, call: Call) -> Answer
    ensures performs { Performs pool.old (perform (rule_of pool.old) call) result pool.new }
    ensures memory { LeavesStore pool.old call result pool.new }
    ensures alone { StaysAlone pool.old call result pool.new }
{
    dispatch(pool, call)
}

// The call by its name. Arms in place of `map`, of whose closures a proof would have to speak.
fn dispatch<S: WritingStore, R: HouseRule>(pool: &mut Pool<S, R>, call: Call) -> Answer
    ensures performs { Performs pool.old (perform (rule_of pool.old) call) result pool.new }
    ensures memory { LeavesStore pool.old call result pool.new }
{
    match call {
        Call::Begin { seat } => match pool.begin(seat) {
            Ok(serial) => Ok(Reply::Serial(serial)),
            Err(fault) => Err(fault),
        },
        Call::Read { seat, entry } => match pool.read(seat, entry) {
            Ok(value) => Ok(Reply::Value(value)),
            Err(fault) => Err(fault),
        },
        Call::Write { seat, entry, value } => match pool.write(seat, entry, value) {
            Ok(()) => Ok(Reply::Done),
            Err(fault) => Err(fault),
        },
        Call::Prepare { seat } => match pool.prepare(seat) {
            Ok(()) => Ok(Reply::Done),
            Err(fault) => Err(fault),
        },
        Call::Vote { seat, entry } => match pool.vote(seat, entry) {
            Ok(yes) => Ok(Reply::Voted(yes)),
            Err(fault) => Err(fault),
        },
        Call::Decide { seat } => match pool.decide(seat) {
            Ok(decision) => Ok(Reply::Decided(decision)),
            Err(fault) => Err(fault),
        },
        Call::Abort { seat } => match pool.abort(seat) {
            Ok(()) => Ok(Reply::Done),
            Err(fault) => Err(fault),
        },
        Call::Finish { seat, entry } => match pool.finish(seat, entry) {
            Ok(()) => Ok(Reply::Done),
            Err(fault) => Err(fault),
        },
        Call::Close { seat } => match pool.close(seat) {
            Ok(()) => Ok(Reply::Done),
            Err(fault) => Err(fault),
        },
    }
}
