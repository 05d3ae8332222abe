// bench: the report on a sheet, its feeds and its firings, read from standard input.
#![tactic(auto)]

use std::io::Stdin;

// One byte more than a bench input may have, so that a longer one is seen.
const SEEN: usize = bench_trial::INPUT + 1;

// The first n bytes of the text.
fn print(text: &[u8], n: usize) {
    if text.len() < n {
        return;
    }
    io::write_all(1, &text[..n]);
}

fn bench(stdin: Stdin, input: &mut [u8], text: &mut [u8]) {
    let f = base_input::fill(stdin, &mut *input, 0, SEEN);
    if f.failed {
        io::write_all(1, b"cannot read\n");
        return;
    }
    let end = f.end;
    let size = bench_report::report(&input[..end], &mut *text).unwrap_or(0);
    print(&*text, size);
}

fn main(rt: HostRuntime) {
    let mut input = [0u8; SEEN];
    let mut text = [0u8; bench_report::TEXT];
    bench(rt.stdin(), &mut input, &mut text);
}
