// One input of `bench`: a sheet, then feeds, then firings; what it comes to. A refused input leaves the lent store as it was.
#![tactic(auto)]

ghost use Rattle.std.specs.Prelude.{◌≡◌, true, length, drop, Ok};
ghost use Rattle.sheet.specs.Sheet.{view_sheet, memory_sheet};
ghost use Rattle.run_store.specs.Store.{STORE};
ghost use Rattle.run_machine.specs.Machine.{run_m};
ghost use Rattle.run_machine.specs.Numbers.{decode};
ghost use Rattle.run_machine.specs.Working.{Stands};
ghost use Rattle.bench_records.specs.Records.{start, all_fed};
ghost use Rattle.bench_records.specs.Looks.{feeds_after};
ghost use Rattle.bench_trial.specs.Trial.{ended, trial_of};
ghost use Rattle.bench_trial.specs.Tries.{Tries, WholeFront, trial_after, fired_after, Feedable, FeedsTo};

use base_refusal::{Reason, Refusal};
use run_machine::State;
use sheet::Sheet;

// The longest input that is taken.
pub const INPUT: usize = base_bounds::INPUT_BYTES;

// More firings than the longest input has.
const LIST: usize = INPUT / bench_records::FIRING_BYTES + 1;

// What an input comes to: the counts, the rest, and the sheet with its state.
#[derive(Clone, Copy)]
pub struct Tried {
    pub fired: usize,
    pub skipped: usize,
    pub rest: bool,
    pub sheet: Sheet,
    pub state: State,
}

// Makes the feeds from `from` on, none of which is refused.
fn feed_all(s: &[u8], from: usize, t: Sheet, state: State, store: &mut [i32]) -> State
    requires { Feedable t state store.old s.now from }
    ensures { FeedsTo (feeds_after t (decode state store.old) (drop from s.now)) t result store.new }
{
    let mut st = state;
    let mut at = from;
    while bench_records::is_feed(s, at) {
        let x = bench_records::item_at(s, at);
        let q = s[at + sheet_format::HEADER];
        st = run_calls::feed_known(t, q, x, st, &mut *store).unwrap_or(st);
        at += bench_records::FEED_BYTES;
    }
    st
}

// Runs a list of firings from good numbers.
fn run_list(t: Sheet, state: State, store: &mut [i32], list: &[u8]) -> Tried
    requires { Stands t state store.old × (memory_sheet (view_sheet t) ≡ t) }
    ensures { Tries (ended (view_sheet t) (run_m (view_sheet t) list.now (decode state store.old)))
        store.old (Ok result) store.new }
{
    let f = run_calls::run_known(t, state, &mut *store, list);
    let after = f.state;
    let ready = run_ready::ready_known(t, after, &*store);
    Tried {
        fired: f.fired,
        skipped: f.skipped,
        rest: ready == 0,
        sheet: t,
        state: after,
    }
}

// A fresh start, the feeds, none of which is refused, and the firings of the list.
fn run_all(s: &[u8], end: usize, t: Sheet, store: &mut [i32], list: &[u8]) -> Result<Tried, Refusal>
    requires { WholeFront t end s.now × (length store.old ≡ STORE) × (all_fed (feeds_after t start (drop end s.now)) ≡ true) }
    ensures { Tries (fired_after t (drop end s.now) list.now) store.old result store.new }
{
    let state = runner::fresh(&mut *store)?;
    let st = feed_all(s, end, t, state, &mut *store);
    Ok(run_list(t, st, &mut *store, list))
}

// The feeds and firings after a whole sheet: the first refusal in record order, and only if there is none the run.
fn try_sheet(s: &[u8], t: Sheet, end: usize, store: &mut [i32]) -> Result<Tried, Refusal>
    requires { WholeFront t end s.now × (length store.old ≡ STORE) }
    ensures { Tries (trial_after t (drop end s.now)) store.old result store.new }
{
    let f = bench_records::look_feeds(s, end, t)?;
    let mut list = [0u8; LIST];
    let n = bench_records::list_firings(s, f.at, f.spot, &mut list)?;
    run_all(s, end, t, &mut *store, &list[..n])
}

// What an input comes to. Where it is not refused, the queues' items are left in the store.
pub fn try_input(s: &[u8], store: &mut [i32]) -> Result<Tried, Refusal>
    requires { length store.old ≡ STORE }
    ensures { Tries (trial_of s.now) store.old result store.new }
{
    if INPUT < s.len() {
        return Err(Reason::TooShort.at(0));
    }
    let f = codec_read::read_front(s)?;
    if !f.whole {
        return Err(Reason::QueueNotOnce.at(f.sheet.count as usize + 1));
    }
    try_sheet(s, f.sheet, f.end, &mut *store)
}
