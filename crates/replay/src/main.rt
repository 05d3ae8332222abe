// replay: makes the calls of a stream, one at a time, and prints what each answers.
#![tactic(auto)]

use replay_printer::Printer;
use replay_stream::{Found, Window};
use std::io::Stdin;

// How many bytes of the stream and of the answers wait at the most.
const INPUT: usize = 65536;

const OUTPUT: usize = 16384;

// The whole stream. Nothing says that it ends, so the turns are counted from a range that no run uses up.
fn serve(
    stdin: Stdin,
    input: &mut [u8],
    store: &mut [i32],
    text: &mut [u8],
    out: &mut Printer<'_>,
) {
    let mut held = replay_held::first();
    let mut w = Window { at: 0, end: 0 };
    for _ in 0..u64::MAX {
        let n = replay_stream::next_call(stdin, &mut *input, w);
        w = n.window;
        match n.found {
            Found::Call { call, at, end } => {
                let body = &input[at..end];
                let next = replay_calls::answer(call, body, held, &mut *store, &mut *text, out);
                held = next;
            }
            Found::Cut => {
                out.line(b"cut");
                return;
            }
            Found::End => return,
        }
    }
}

fn main(rt: HostRuntime) {
    let mut input = [0u8; INPUT];
    let mut store = [0i32; run_machine::STORE];
    let mut text = [0u8; bench_report::TEXT];
    let mut buffer = [0u8; OUTPUT];
    let mut out = Printer::new(&mut buffer);
    serve(rt.stdin(), &mut input, &mut store, &mut text, &mut out);
    out.end();
}
