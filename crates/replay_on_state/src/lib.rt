// The calls on a state, 9 to 12, made and printed as those on a sheet.
#![tactic(auto)]

ghost use Rattle.std.specs.Prelude.{◌+◌, ◌*◌, ◌≡◌, length, MatchResult};
ghost use Rattle.std.specs.Result.{result_unwrap_or};
ghost use Rattle.base_bounds.specs.Bounds.{FIELDS};

use base_refusal::Refusal;
use replay_printer::Printer;
use run_machine::{State, TakenItem};
use run_store::Item;
use sheet::Sheet;

// The body of a feed: a queue, and four bytes for each field.
const FEED: usize = 1 + 4 * run_store::FIELDS;

// A call that may leave another state: its answer is printed, and the state is the new one where it was done, else the one before.
fn done_state(answer: Result<State, Refusal>, before: State, out: &mut Printer<'_>) -> State
    ensures { result ≡ result_unwrap_or answer before }
{
    match answer {
        Ok(_) => out.line(b"done"),
        Err(e) => out.refusal(e),
    }
    answer.unwrap_or(before)
}

// 9
pub fn call_fresh(body: &[u8], state: State, store: &mut [i32], out: &mut Printer<'_>) -> State {
    if body.len() != 2 || store.len() < base_number::short_at(body, 0) {
        out.bad();
        return state;
    }
    let n = base_number::short_at(body, 0);
    done_state(runner::fresh(&mut store[..n]), state, out)
}

// The fields behind a body's first byte.
fn item(body: &[u8]) -> Item
    requires { length body.now ≡ 1 + 4 * FIELDS }
{
    let mut x = Item {
        f: [0; run_store::FIELDS],
    };
    for i in 0..run_store::FIELDS {
        x.f[i] = base_number::int_at(body, 1 + 4 * i);
    }
    x
}

// 10
pub fn call_feed(
    body: &[u8],
    t: Sheet,
    state: State,
    store: &mut [i32],
    out: &mut Printer<'_>,
) -> State {
    if body.len() != FEED {
        out.bad();
        return state;
    }
    let answer = runner::feed(t, state, &mut *store, body[0], item(body));
    done_state(answer, state, out)
}

// A take's answer is printed, and the state is the one that it left, else the one before.
fn taken_state(answer: Result<TakenItem, Refusal>, before: State, out: &mut Printer<'_>) -> State
    ensures { MatchResult answer (λ taken. result ≡ taken.state) (λ _. result ≡ before) }
{
    match answer {
        Ok(taken) => {
            out.text(b"item");
            out.item(taken.item);
            taken.state
        }
        Err(e) => {
            out.refusal(e);
            before
        }
    }
}

// 11
pub fn call_take(
    body: &[u8],
    t: Sheet,
    state: State,
    store: &mut [i32],
    out: &mut Printer<'_>,
) -> State {
    if body.len() != 1 {
        out.bad();
        return state;
    }
    let answer = runner::take(t, state, &mut *store, body[0]);
    taken_state(answer, state, out)
}

// 12
pub fn call_fire(
    body: &[u8],
    t: Sheet,
    state: State,
    store: &mut [i32],
    out: &mut Printer<'_>,
) -> State {
    if body.len() != 1 {
        out.bad();
        return state;
    }
    let answer = runner::fire(t, state, &mut *store, body[0]);
    done_state(answer, state, out)
}
