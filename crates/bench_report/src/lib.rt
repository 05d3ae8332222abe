// What `bench` prints of one input, as a function from its bytes to a lent buffer.
#![tactic(auto)]

ghost use Rattle.std.specs.Prelude.{◌+◌, ◌*◌, ◌≤◌, ◌<◌, ◌≡◌, length, IfOk};
ghost use Rattle.sheet.specs.Sheet.{view_sheet};
ghost use Rattle.base_words.specs.Text.{PutsText};
ghost use Rattle.bench_lines.specs.Lines.{LINE};
ghost use Rattle.base_bounds.specs.Bounds.{QUEUES, ROOM};
ghost use Rattle.run_store.specs.Store.{STORE};
ghost use Rattle.run_machine.specs.Numbers.{decode};
ghost use Rattle.run_machine.specs.Working.{Stands};
ghost use Rattle.bench_trial.specs.Trial.{outputs_of};
ghost use Rattle.bench_report.specs.Print.{item_lines, printed, lines_if, ended_in, told, Shown};
ghost use Rattle.bench_report.specs.Reports.{TEXT, Reports};

use base_refusal::{Reason, Refusal};
use bench_trial::Tried;
use run_machine::State;
use sheet::Sheet;

// A buffer of this length is always enough.
pub const TEXT: usize = 131072;

// The lines of queue q, which holds n items, if it is an output.
fn put_output(s: &mut [u8], at: usize, output: bool, q: u8, n: u8, store: &[i32]) -> usize
    requires { (at + LINE * ROOM ≤ length s.old) × (length store.now ≡ STORE) × (q < QUEUES) × (n ≤ ROOM) }
    ensures { PutsText (lines_if output q n store.now) s.old at s.new result × (result ≤ at + LINE * ROOM) }
{
    if !output {
        return at;
    }
    let from = run_store::PART * (q as usize);
    let to = from + run_store::PART;
    bench_lines::put_items(s, at, q, n as usize, &store[from..to])
}

// The lines of each output, by number.
fn put_outputs(s: &mut [u8], at: usize, t: Sheet, state: State, store: &[i32]) -> usize
    requires { (at + LINE * ROOM * QUEUES ≤ length s.old) × Stands t state store.now }
    ensures { PutsText (item_lines (outputs_of (view_sheet t) (decode state store.now))) s.old at s.new result
        × (result ≤ at + LINE * ROOM * QUEUES) }
{
    let rs = run_reader::readers(t);
    let counts = state.counts;
    let n = t.queues;
    let mut end = at;
    for q in 0..n {
        let i = run_reader::reader_at(&rs, q);
        let j = q as usize;
        let k = counts[j];
        end = put_output(s, end, i == sheet::OPERATORS, q, k, store);
    }
    end
}

// The lines of an input that is not refused.
fn put_figures(s: &mut [u8], r: Tried, store: &[i32]) -> usize
    requires { (TEXT ≤ length s.old) × Shown r store.now }
    ensures { PutsText (printed (ended_in r store.now)) s.old 0 s.new result × (result ≤ TEXT) }
{
    let t = r.sheet;
    let state = r.state;
    let a = bench_lines::put_counts(s, 0, r.fired, r.skipped, r.rest);
    let b = put_outputs(s, a, t, state, store);
    let vars = state.vars;
    bench_lines::put_variables(s, b, t.variables as usize, &vars)
}

// The lines of an input.
fn put_trial(s: &mut [u8], tried: Result<Tried, Refusal>, store: &[i32]) -> usize
    requires { (TEXT ≤ length s.old) × IfOk tried (λ r. Shown r store.now) }
    ensures { PutsText (printed (told tried store.now)) s.old 0 s.new result × (result ≤ TEXT) }
{
    match tried {
        Ok(r) => put_figures(s, r, store),
        Err(e) => bench_lines::put_refusal(s, 0, e.reason.into(), e.spot.unwrap_or(0)),
    }
}

// What `bench` prints of an input, to the front of the buffer; its size, or 18 at record 0 for a buffer that is shorter than TEXT.
pub fn report(input: &[u8], buffer: &mut [u8]) -> Result<usize, Refusal>
    ensures { Reports input.now buffer.old buffer.new result }
{
    if buffer.len() < TEXT {
        return Err(Reason::TooShort.at(0));
    }
    let mut store = [0i32; run_machine::STORE];
    let r = bench_trial::try_input(input, &mut store);
    Ok(put_trial(buffer, r, &store))
}
