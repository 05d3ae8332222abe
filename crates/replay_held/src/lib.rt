// What replay holds between calls: at the start, after a call, and where a call sets one number of it, right or wrong.
#![tactic(auto)]

ghost use Rattle.std.specs.Prelude.{◌<◌, ◌≡◌};
ghost use Rattle.std.specs.Result.{result_unwrap_or};
ghost use Rattle.run_machine.specs.Calls.{fresh_state};
ghost use Rattle.replay_held.specs.Held.{NamesPlace, CountSet, VariableSet, NumberSet};

use run_machine::State;
use sheet::Sheet;

// The sheet that is held at the start: one input and no operator.
fn first_sheet() -> Sheet {
    let operators = [sheet_decode::NO_OPERATOR; sheet::OPERATORS];
    Sheet {
        inputs: 1,
        queues: 1,
        variables: 0,
        count: 0,
        operators,
    }
}

fn first_state() -> State
    ensures { result ≡ fresh_state }
{
    State {
        counts: [0; run_machine::QUEUES],
        vars: [0; run_machine::VARIABLES],
    }
}

// What is held at the start.
pub fn first() -> Holding {
    Holding {
        sheet: first_sheet(),
        state: first_state(),
    }
}

// The new sheet where the call was done, else the old one.
pub fn kept<E: Copy>(answer: Result<Sheet, E>, old: Sheet) -> Sheet
    ensures { result ≡ result_unwrap_or answer old }
{
    answer.unwrap_or(old)
}

// What is held between calls.
#[derive(Clone, Copy)]
pub struct Holding {
    pub sheet: Sheet,
    pub state: State,
}

// The place that a body of n bytes names with its first, where it is one of the places.
fn place_in(body: &[u8], n: usize, places: usize) -> Option<usize>
    requires { 0 < n }
    ensures { NamesPlace body.now n places result }
{
    if body.len() == n && usize::from(body[0]) < places {
        return Some(usize::from(body[0]));
    }
    None
}

// 15: the state with one count set, where the body is good.
pub fn set_count(body: &[u8], state: State) -> Option<State>
    ensures { CountSet body.now state result }
{
    let q = place_in(body, 2, run_machine::QUEUES)?;
    let mut next = state;
    next.counts[q] = body[1];
    Some(next)
}

// 16: the state with one variable set, where the body is good.
pub fn set_variable(body: &[u8], state: State) -> Option<State>
    ensures { VariableSet body.now state result }
{
    let v = place_in(body, 5, run_machine::VARIABLES)?;
    let mut next = state;
    next.vars[v] = base_number::int_at(body, 1);
    Some(next)
}

// 17: one number of the store set; whether the body is good.
pub fn set_number(body: &[u8], store: &mut [i32]) -> bool
    ensures { NumberSet body.now store.old result store.new }
{
    if body.len() != 6 {
        return false;
    }
    let place = base_number::short_at(body, 0);
    if store.len() <= place {
        return false;
    }
    store[place] = base_number::int_at(body, 2);
    true
}
