// Each of the runner's calls where sheet, state and store are good: nothing is checked again.
#![tactic(auto)]

ghost use Rattle.std.specs.Prelude.{◌≡◌, ◌≤◌, Ok};
ghost use Rattle.base_lists.specs.Lists.{bit};
ghost use Rattle.sheet.specs.Answer.{paper, accepted, is_accepted};
ghost use Rattle.sheet.specs.Sheet.{view_sheet};
ghost use Rattle.sheet.specs.Check.{check_of};
ghost use Rattle.run_machine.specs.Machine.{is_output};
ghost use Rattle.run_machine.specs.Calls.{fire_known, feed_known, take_known, run_known};
ghost use Rattle.run_machine.specs.Answers.{Answers, TakeAnswers, RunAnswers};
ghost use Rattle.run_machine.specs.Working.{Stands};

use base_refusal::{Reason, Refusal};
use run_machine::{RunEnd, State, TakenItem};
use run_store::Item;
use sheet::Sheet;

// Fires the operator that reads queue q, where sheet and state are good.
pub fn fire_known(t: Sheet, q: u8, state: State, store: &mut [i32]) -> Result<State, Refusal>
    requires { Stands t state store.old }
    ensures { Answers (fire_known t state store.old q) state result store.new }
{
    let rs = run_reader::readers(t);
    let i = run_reader::reader_at(&rs, q);
    let reader = t.operators.get(i).copied();
    let mut counts = state.counts;
    let mut vars = state.vars;
    run_machine::fire_reader(reader, q, &mut counts, &mut vars, &mut *store)?;
    Ok(State { counts, vars })
}

// Puts an item on an input.
pub fn feed_known(
    t: Sheet,
    q: u8,
    x: Item,
    state: State,
    store: &mut [i32],
) -> Result<State, Refusal>
    requires { Stands t state store.old }
    ensures { Answers (feed_known t state store.old q x) state result store.new }
{
    if t.inputs <= q {
        return Err(Reason::WrongQueue.into());
    }
    let mut counts = state.counts;
    if run_machine::is_full(counts, q) {
        return Err(Reason::FullQueue.into());
    }
    run_machine::put(&mut counts, &mut *store, q, x);
    let vars = state.vars;
    Ok(State { counts, vars })
}

// An output is a queue below Q that no operator reads.
fn is_output(t: Sheet, q: u8) -> bool
    requires { check_of t ≡ accepted }
    ensures { result ≡ is_output (view_sheet t) q }
{
    q < t.queues && run_reader::reader_at(&run_reader::readers(t), q) == sheet::OPERATORS
}

// Takes the oldest item of an output.
pub fn take_known(t: Sheet, q: u8, state: State, store: &mut [i32]) -> Result<TakenItem, Refusal>
    requires { Stands t state store.old }
    ensures { TakeAnswers (take_known t state store.old q) state result store.new }
{
    if !is_output(t, q) {
        return Err(Reason::WrongQueue.into());
    }
    let i = q as usize;
    let mut counts = state.counts;
    if counts[i] == 0 {
        return Err(Reason::EmptyQueue.into());
    }
    let item = run_store::first(&*store, i);
    run_machine::take_one(&mut counts, &mut *store, q);
    let vars = state.vars;
    Ok(TakenItem {
        item,
        state: State { counts, vars },
    })
}

// 1 for an accepted firing, 0 for a refused one.
fn one_if_done(firing: Result<(), Refusal>) -> usize
    ensures { (result ≡ bit (is_accepted (paper firing))) × (result ≤ 1) }
{
    match firing {
        Ok(()) => 1,
        Err(_) => 0,
    }
}

// Fires each queue of a list in turn, from good numbers; sheet and numbers are not looked at again.
pub fn run_known(t: Sheet, state: State, store: &mut [i32], list: &[u8]) -> RunEnd
    requires { Stands t state store.old }
    ensures { RunAnswers (run_known t state store.old list.now) state (Ok result) store.new }
{
    let rs = run_reader::readers(t);
    let mut counts = state.counts;
    let mut vars = state.vars;
    let mut fired: usize = 0;
    let mut skipped: usize = 0;
    for k in 0..list.len() {
        let q = list[k];
        let i = run_reader::reader_at(&rs, q);
        let reader = t.operators.get(i).copied();
        let a = run_machine::fire_reader(reader, q, &mut counts, &mut vars, &mut *store);
        let n = one_if_done(a);
        fired += n;
        skipped += 1 - n;
    }
    RunEnd {
        fired,
        skipped,
        state: State { counts, vars },
    }
}
