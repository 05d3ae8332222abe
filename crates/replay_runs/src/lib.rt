// A run and the ready set, 13 and 14, made and printed as the other calls on a state; the calls that set one number, 15 to 17;
// and which call each number is of those that may change the state.
#![tactic(auto)]

ghost use Rattle.std.specs.Prelude.{◌≡◌, MatchResult};
ghost use Rattle.std.specs.Option.{unwrap_or};

use base_refusal::Refusal;
use replay_held::Holding;
use replay_printer::Printer;
use run_machine::{ReadySet, RunEnd, State};
use sheet::Sheet;

// A run's answer is printed, and the state is the one that it left, else the one before.
fn ran_state(answer: Result<RunEnd, Refusal>, before: State, out: &mut Printer<'_>) -> State
    ensures { MatchResult answer (λ ran. result ≡ ran.state) (λ _. result ≡ before) }
{
    match answer {
        Ok(ran) => {
            put_ran(ran, out);
            ran.state
        }
        Err(e) => {
            out.refusal(e);
            before
        }
    }
}

// 13
fn call_run(
    body: &[u8],
    t: Sheet,
    state: State,
    store: &mut [i32],
    out: &mut Printer<'_>,
) -> State {
    let answer = runner::run(t, state, &mut *store, body);
    ran_state(answer, state, out)
}

fn put_ran(n: RunEnd, out: &mut Printer<'_>) {
    out.named(b"fired", n.fired as u64);
    out.named(b" skipped", n.skipped as u64);
    out.byte(b'\n');
}

// 14
pub fn call_ready(body: &[u8], t: Sheet, state: State, store: &[i32], out: &mut Printer<'_>) {
    if body.len() != 0 {
        out.bad();
        return;
    }
    match runner::ready(t, state, store) {
        Ok(r) => put_ready(r, out),
        Err(e) => out.refusal(e),
    }
}

fn put_ready(r: ReadySet, out: &mut Printer<'_>) {
    out.named(b"ready", u64::from(r.set));
    out.named(b" count", u64::from(r.count));
    out.named(b" lowest", u64::from(r.lowest));
    out.byte(b'\n');
}

// The state with one number of it set, or as it was where the body is bad.
fn set_state(changed: Option<State>, before: State, out: &mut Printer<'_>) -> State
    ensures { result ≡ unwrap_or changed before }
{
    out.done(changed.is_some());
    changed.unwrap_or(before)
}

// The call that sets one number of the store.
pub fn set_number(body: &[u8], store: &mut [i32], out: &mut Printer<'_>) {
    out.done(replay_held::set_number(body, &mut *store));
}

// The calls that may change state and store.
fn state_call(
    call: u8,
    body: &[u8],
    held: Holding,
    store: &mut [i32],
    out: &mut Printer<'_>,
) -> State {
    let t = held.sheet;
    let state = held.state;
    match call {
        9 => replay_on_state::call_fresh(body, state, &mut *store, out),
        10 => replay_on_state::call_feed(body, t, state, &mut *store, out),
        11 => replay_on_state::call_take(body, t, state, &mut *store, out),
        12 => replay_on_state::call_fire(body, t, state, &mut *store, out),
        13 => call_run(body, t, state, &mut *store, out),
        15 => set_state(replay_held::set_count(body, state), state, out),
        _ => set_state(replay_held::set_variable(body, state), state, out),
    }
}

// The call made, and what is held afterwards.
pub fn change_state(
    call: u8,
    body: &[u8],
    held: Holding,
    store: &mut [i32],
    out: &mut Printer<'_>,
) -> Holding {
    let state = state_call(call, body, held, &mut *store, out);
    Holding { state, ..held }
}
