ghost use Rattle.std.specs.Prelude.{◌≡◌};
ghost use Rattle.calls.specs.States.{next_state};

use crate::call::CallName;

/// The state of a seat's edit. An idle seat has none.
#[derive(Clone, Copy, PartialEq, Eq, Debug)]
pub enum State {
    Idle,
    Editing,
    Voting,
    Commit,
    Abort,
}

const NO: Option<State> = None;

const IDLE: Option<State> = Some(State::Idle);

const EDITING: Option<State> = Some(State::Editing);

const VOTING: Option<State> = Some(State::Voting);

const COMMIT: Option<State> = Some(State::Commit);

const ABORT: Option<State> = Some(State::Abort);

// For each call, by the state of the seat (idle, editing, voting, commit, abort), the state that it leads to, or none.
// Decide leads to commit here, and to abort where a vote is no. A constant that is looked up, so that it reads as the table in
// docs/POOL.md does; the two enums are its indices.
const STEPS: &[[Option<State>; 5]; 9] = &[
    [EDITING, NO, NO, NO, NO],
    [NO, EDITING, NO, NO, NO],
    [NO, EDITING, NO, NO, NO],
    [NO, VOTING, NO, NO, NO],
    [NO, NO, VOTING, NO, NO],
    [NO, NO, COMMIT, NO, NO],
    [NO, ABORT, ABORT, NO, NO],
    [NO, NO, NO, COMMIT, ABORT],
    [NO, NO, NO, IDLE, IDLE],
];

pub fn next_state(name: CallName, state: State) -> Option<State>
    ensures { result ≡ next_state name state }
{
    STEPS[name as usize][state as usize]
}
