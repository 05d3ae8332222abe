// The machine in numbers: the state, and one firing from a queue. The runner's calls are made of these.
#![tactic(auto)]

ghost use Rattle.std.specs.Prelude.{◌≡◌, true, ◌<◌, ltb, leb, length, get_or, IfSome};
ghost use Rattle.base_lists.specs.Lists.{all, any};
ghost use Rattle.sheet_operator.specs.Memory.{view};
ghost use Rattle.run_store.specs.Store.{STORE};
ghost use Rattle.base_bounds.specs.Bounds.{QUEUES, ROOM};
ghost use Rattle.run_effect.specs.Effect.{puts_of};
ghost use Rattle.run_machine.specs.Machine.{fire_op};
ghost use Rattle.run_machine.specs.Working.{raw, put_raw, take_raw, puts_raw, state_with, Room, CanFire, fire_reader, lent, LentAnswers, Attempts};

use base_refusal::{Reason, Refusal};
use run_effect::{Effect, Puts};
use run_store::Item;
use sheet_operator::Operator;

pub const QUEUES: usize = run_store::QUEUES;

pub const VARIABLES: usize = run_effect::VARIABLES;

pub const ROOM: u8 = run_store::ROOM as u8;

pub const STORE: usize = run_store::STORE;

// The number of items in each queue, and the variables. The items lie in the lent store.
#[derive(Clone, Copy)]
pub struct State {
    pub counts: [u8; QUEUES],
    pub vars: [i32; VARIABLES],
}

// The item that a take removed, and the state afterwards.
#[derive(Clone, Copy)]
pub struct TakenItem {
    pub item: Item,
    pub state: State,
}

// How many of a run's firings were made and how many skipped, and the state afterwards.
#[derive(Clone, Copy)]
pub struct RunEnd {
    pub fired: usize,
    pub skipped: usize,
    pub state: State,
}

// The ready set, how many are ready, and the lowest.
#[derive(Clone, Copy)]
pub struct ReadySet {
    pub set: u32,
    pub count: u32,
    pub lowest: u32,
}

// Whether a queue holds 64.
pub fn is_full(counts: [u8; QUEUES], q: u8) -> bool
    requires { q < QUEUES }
    ensures { result ≡ leb ROOM (get_or counts q 0) }
{
    ROOM <= counts[q as usize]
}

// Whether one of the queues to put on holds 64.
fn no_room(counts: [u8; QUEUES], puts: Puts) -> bool
    requires { all (λ q. ltb q QUEUES) (puts_of puts) ≡ true }
    ensures { result ≡ any (λ q. leb ROOM (get_or counts q 0)) (puts_of puts) }
{
    match puts {
        Puts::Nowhere => false,
        Puts::One(a) => is_full(counts, a),
        Puts::Two(a, b) => is_full(counts, a) || is_full(counts, b),
    }
}

// Puts an item on queue q.
pub fn put(counts: &mut [u8; QUEUES], store: &mut [i32], q: u8, x: Item)
    requires { (length store.old ≡ STORE) × (q < QUEUES) × (get_or counts.old q 0 < ROOM) }
    ensures { raw counts.new store.new ≡ put_raw (raw counts.old store.old) q x }
{
    let i = q as usize;
    let n = counts[i];
    run_store::push(&mut *store, i, n as usize, x);
    counts[i] = n + 1;
}

// Puts an item on each of the queues.
fn put_all(counts: &mut [u8; QUEUES], store: &mut [i32], puts: Puts, x: Item)
    requires { (length store.old ≡ STORE) × Room counts.old (puts_of puts) }
    ensures { raw counts.new store.new ≡ puts_raw (raw counts.old store.old) (puts_of puts) x }
{
    match puts {
        Puts::Nowhere => {}
        Puts::One(a) => {
            put(&mut *counts, &mut *store, a, x);
        }
        Puts::Two(a, b) => {
            put(&mut *counts, &mut *store, a, x);
            put(&mut *counts, &mut *store, b, x);
        }
    }
}

// Takes the oldest item of queue q.
pub fn take_one(counts: &mut [u8; QUEUES], store: &mut [i32], q: u8)
    requires { (length store.old ≡ STORE) × (q < QUEUES) × (0 < get_or counts.old q 0) }
    ensures { raw counts.new store.new ≡ take_raw (raw counts.old store.old) q }
{
    let i = q as usize;
    run_store::take(&mut *store, i);
    let n = counts[i];
    counts[i] = n - 1;
}

// What firing an operator from queue q would do: nothing is touched, so a refusal leaves all as it was.
pub fn try_operator(o: Operator, q: u8, state: State, store: &[i32]) -> Result<Effect, Reason>
    requires { CanFire o q state store.now }
    ensures { Attempts o q state store.now result }
{
    let i = q as usize;
    let counts = state.counts;
    let vars = state.vars;
    if counts[i] == 0 {
        return Err(Reason::EmptyQueue);
    }
    if run_effect::has_to_wait(o, q, vars) {
        return Err(Reason::Waits);
    }
    let x = run_store::first(store, i);
    let e = run_effect::act(o, x, vars);
    if no_room(counts, e.puts) {
        return Err(Reason::FullQueue);
    }
    Ok(e)
}

// Fires an operator from queue q. Counts and variables are lent, so that a firing copies none of them back. It is
// inlined, and so is what calls it: most queues of a run are empty, and a call would copy the operator and a refusal.
#[inline(always)]
fn fire_operator(
    o: Operator,
    q: u8,
    counts: &mut [u8; QUEUES],
    vars: &mut [i32; VARIABLES],
    store: &mut [i32],
) -> Result<(), Refusal>
    requires { (length counts.old ≡ QUEUES) × CanFire o q (state_with counts.old vars.old) store.old }
    ensures { LentAnswers (λ m. fire_op (view o) m q)
        (lent counts.old vars.old store.old) result
        (lent counts.new vars.new store.new) }
{
    let i = q as usize;
    if counts[i] == 0 {
        return Err(Reason::EmptyQueue.into());
    }
    let cs = *counts;
    let vs = *vars;
    let before = State {
        counts: cs,
        vars: vs,
    };
    let e = try_operator(o, q, before, &*store)?;
    take_one(&mut *counts, &mut *store, q);
    put_all(&mut *counts, &mut *store, e.puts, e.item);
    let next = e.vars;
    *vars = next;
    Ok(())
}

// Fires a queue's reader, 9 where it has none.
#[inline(always)]
pub fn fire_reader(
    reader: Option<Operator>,
    q: u8,
    counts: &mut [u8; QUEUES],
    vars: &mut [i32; VARIABLES],
    store: &mut [i32],
) -> Result<(), Refusal>
    requires { (length counts.old ≡ QUEUES)
        × IfSome reader (λ o. CanFire o q (state_with counts.old vars.old) store.old) }
    ensures { LentAnswers (λ m. fire_reader reader m q)
        (lent counts.old vars.old store.old) result
        (lent counts.new vars.new store.new) }
{
    match reader {
        Some(o) => fire_operator(o, q, &mut *counts, &mut *vars, &mut *store),
        None => Err(Reason::WrongQueue.into()),
    }
}
