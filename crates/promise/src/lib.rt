// What "every edit as if made alone" means for a history of calls, and the proof that steps which follow its table keep to it.
#![tactic(auto)]

ghost use Rattle.promise.specs.Wrong.{WrongPoolsFail};

// The promise is not for nothing: each of its parts refuses a pool that is wrong in that part.
pub fn wrong_pools_fail()
    ensures { WrongPoolsFail }
{}
