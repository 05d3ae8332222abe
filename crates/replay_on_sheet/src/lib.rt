// The calls that leave the sheet as it is, 1, 3 to 5 and 20: the body's numbers taken out, the public function called, its answer printed.
// A body whose length is not the call's, or a number outside its bounds, prints `bad call` and changes nothing.
#![tactic(auto)]

ghost use Rattle.std.specs.Prelude.{◌*◌, ◌≡◌, length};
ghost use Rattle.base_bounds.specs.Bounds.{QUEUES};

use replay_printer::Printer;
use sheet::Sheet;

// The body of call 5: four bytes for each queue.
const FED: usize = 4 * counts::QUEUES;

// 1
fn call_bench(body: &[u8], text: &mut [u8], out: &mut Printer<'_>) {
    let size = bench_report::report(body, &mut *text).unwrap_or(0);
    out.front(&*text, size);
}

// 4
fn call_calm(body: &[u8], t: Sheet, out: &mut Printer<'_>) {
    if body.len() != 0 {
        out.bad();
        return;
    }
    match counts::calm(t) {
        Ok(true) => out.line(b"calm"),
        Ok(false) => out.line(b"not calm"),
        Err(e) => out.refusal(e),
    }
}

// The numbers of a body that has one for each queue.
fn numbers(body: &[u8]) -> [u64; counts::QUEUES]
    requires { length body.now ≡ 4 * QUEUES }
{
    let mut r = [0u64; counts::QUEUES];
    for q in 0..counts::QUEUES {
        r[q] = u64::from(base_number::bits(base_number::int_at(body, 4 * q)));
    }
    r
}

// 5
fn call_worst(body: &[u8], t: Sheet, out: &mut Printer<'_>) {
    if body.len() != FED {
        out.bad();
        return;
    }
    match counts::worst(t, numbers(body)) {
        Ok(ns) => put_counts(ns, out),
        Err(e) => out.refusal(e),
    }
}

fn put_counts(ns: [u64; counts::QUEUES], out: &mut Printer<'_>) {
    out.text(b"worst");
    for n in &ns {
        out.next(*n);
    }
    out.byte(b'\n');
}

// Which call each number is. One that is none of them is a bad call.
pub fn ask_sheet(call: u8, body: &[u8], t: Sheet, text: &mut [u8], out: &mut Printer<'_>) {
    match call {
        1 => call_bench(body, &mut *text, out),
        3 => replay_forms::call_lent(codec_write::write, b"bytes ", body, t, out),
        4 => call_calm(body, t, out),
        5 => call_worst(body, t, out),
        20 => replay_forms::call_lent(text_print::print, b"text ", body, t, out),
        _ => out.bad(),
    }
}
