// One call of the stream: made by what it may change, answered, and what is held afterwards.
#![tactic(auto)]

use replay_held::Holding;
use replay_printer::Printer;

// The calls that change neither sheet nor state.
fn other_call(
    call: u8,
    body: &[u8],
    held: Holding,
    store: &mut [i32],
    text: &mut [u8],
    out: &mut Printer<'_>,
) {
    match call {
        14 => replay_runs::call_ready(body, held.sheet, held.state, &*store, out),
        17 => replay_runs::set_number(body, &mut *store, out),
        18 => replay_show::show_all(body, held.state, &*store, out),
        _ => replay_on_sheet::ask_sheet(call, body, held.sheet, &mut *text, out),
    }
}

// The call made by what of sheet and state it may change: the sheet, the state, or neither.
fn made(
    call: u8,
    body: &[u8],
    held: Holding,
    store: &mut [i32],
    text: &mut [u8],
    out: &mut Printer<'_>,
) -> Holding {
    match call {
        2 | 6 | 7 | 8 | 19 => replay_rewrites::change_sheet(call, body, held, out),
        9 | 10 | 11 | 12 | 13 | 15 | 16 => replay_runs::change_state(
            call,
            body,
            held,
            &mut *store,
            out,
        ),
        _ => {
            other_call(call, body, held, &mut *store, &mut *text, out);
            held
        }
    }
}

// Makes a call and prints its answer, which ends with a line of its own.
pub fn answer(
    call: u8,
    body: &[u8],
    held: Holding,
    store: &mut [i32],
    text: &mut [u8],
    out: &mut Printer<'_>,
) -> Holding {
    let next = made(call, body, held, &mut *store, &mut *text, out);
    out.line(b"--");
    next
}
