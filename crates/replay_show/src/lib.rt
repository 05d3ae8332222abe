// Call 18: the counts, the variables, and each number of the store that is not 0.
#![tactic(auto)]

use replay_printer::Printer;
use run_machine::State;

// 18
pub fn show_all(body: &[u8], state: State, store: &[i32], out: &mut Printer<'_>) {
    if body.len() != 0 {
        out.bad();
        return;
    }
    show_counts(state, out);
    show_variables(state, out);
    show_store(store, out);
}

fn show_counts(state: State, out: &mut Printer<'_>) {
    out.text(b"counts");
    for n in &state.counts {
        out.next(u64::from(*n));
    }
    out.byte(b'\n');
}

fn show_variables(state: State, out: &mut Printer<'_>) {
    out.text(b"variables");
    for z in &state.vars {
        out.next_signed(*z);
    }
    out.byte(b'\n');
}

// A line for each place that is not 0.
fn show_store(store: &[i32], out: &mut Printer<'_>) {
    for (place, z) in store.iter().enumerate() {
        if *z != 0 {
            out.byte(b's');
            out.next(place as u64);
            out.next_signed(*z);
            out.byte(b'\n');
        }
    }
}
