// The runner: fresh, feed, take, fire, run and the ready set, on any sheet, state and store.
#![tactic(auto)]

ghost use Rattle.run_machine.specs.declared.State.{State};
ghost use Rattle.run_machine.specs.Calls.{fire_of, feed_of, take_of, run_of, ready_of, fresh_of};
ghost use Rattle.run_machine.specs.Answers.{Answers, TakeAnswers, RunAnswers, ReadyAnswers};
ghost use Rattle.run_machine.specs.Readers.{reader_of, ReaderAnswers};

use base_refusal::{Reason, Refusal};
use run_machine::{ReadySet, RunEnd, State, TakenItem};
use run_store::Item;
use sheet::Sheet;

// Fires the operator that reads queue q.
pub fn fire(t: Sheet, state: State, store: &mut [i32], q: u8) -> Result<State, Refusal>
    ensures { Answers (fire_of t state store.old q) state result store.new }
{
    run_standing::stands(t, state, &*store)?;
    run_calls::fire_known(t, q, state, &mut *store)
}

// Puts an item on an input.
pub fn feed(t: Sheet, state: State, store: &mut [i32], q: u8, x: Item) -> Result<State, Refusal>
    ensures { Answers (feed_of t state store.old q x) state result store.new }
{
    run_standing::stands(t, state, &*store)?;
    run_calls::feed_known(t, q, x, state, &mut *store)
}

// Removes an output's oldest item and answers it.
pub fn take(t: Sheet, state: State, store: &mut [i32], q: u8) -> Result<TakenItem, Refusal>
    ensures { TakeAnswers (take_of t state store.old q) state result store.new }
{
    run_standing::stands(t, state, &*store)?;
    run_calls::take_known(t, q, state, &mut *store)
}

// Fires each queue of a list in turn and skips those refused.
pub fn run(t: Sheet, state: State, store: &mut [i32], list: &[u8]) -> Result<RunEnd, Refusal>
    ensures { RunAnswers (run_of t state store.old list.now) state result store.new }
{
    run_standing::stands(t, state, &*store)?;
    Ok(run_calls::run_known(t, state, &mut *store, list))
}

// The queues that would fire, how many and the lowest; at rest where there is none.
pub fn ready(t: Sheet, state: State, store: &[i32]) -> Result<ReadySet, Refusal>
    ensures { ReadyAnswers (ready_of t state store.now) result }
{
    run_standing::stands(t, state, store)?;
    let set = run_ready::ready_known(t, state, store);
    Ok(ReadySet {
        set,
        count: u32::count_ones(set),
        lowest: u32::trailing_zeros(set),
    })
}

// A state and a store of zeros, whatever stood there; refuses only a wrong store length.
pub fn fresh(store: &mut [i32]) -> Result<State, Refusal>
    ensures { (before : State) → Answers (fresh_of before store.old) before result store.new }
{
    if store.len() != run_machine::STORE {
        return Err(Reason::BadState.into());
    }
    run_store::clear(&mut *store);
    Ok(State {
        counts: [0; run_machine::QUEUES],
        vars: [0; run_machine::VARIABLES],
    })
}

// The place of the operator that reads queue q: 9 where none does, also where q is no queue.
pub fn reader_of(t: Sheet, q: u8) -> Result<usize, Refusal>
    ensures { ReaderAnswers (reader_of t q) result }
{
    sheet::check(t)?;
    let readers = run_reader::readers(t);
    let place = run_reader::reader_at(&readers, q);
    if sheet::OPERATORS <= place {
        return Err(Reason::WrongQueue.into());
    }
    Ok(place)
}
