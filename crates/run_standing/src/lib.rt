// The test of a sheet with its state and store: the sheet's own refusal, then 8.
#![tactic(auto)]

ghost use Rattle.std.specs.Prelude.{◌≡◌, ◌≤◌, eqb, drop};
ghost use Rattle.base_lists.specs.Lists.{all};
ghost use Rattle.sheet.specs.Answer.{paper, accepted};
ghost use Rattle.sheet.specs.Sheet.{view_sheet};
ghost use Rattle.sheet.specs.Check.{check_of};
ghost use Rattle.base_bounds.specs.Bounds.{QUEUES};
ghost use Rattle.run_effect.specs.Effect.{cursor_good};
ghost use Rattle.run_machine.specs.Numbers.{good};
ghost use Rattle.run_machine.specs.Calls.{stands_of};

use base_refusal::{Reason, Refusal};
use run_machine::State;
use sheet::Sheet;

fn none_from(counts: [u8; run_machine::QUEUES], from: usize) -> bool
    requires { from ≤ QUEUES }
    ensures { result ≡ all (λ n. eqb n 0) (drop from counts) }
{
    for i in from..run_machine::QUEUES {
        if counts[i] != 0 {
            return false;
        }
    }
    true
}

fn cursors_good(t: Sheet, vars: [i32; run_machine::VARIABLES]) -> bool
    requires { check_of t ≡ accepted }
    ensures { result ≡ all (λ o. cursor_good o vars) (view_sheet t).ops }
{
    let n = t.count as usize;
    for i in 0..n {
        if !run_effect::cursor_good(t.operators[i], vars) {
            return false;
        }
    }
    true
}

// 8: whether store and state are as they have to be for an accepted sheet.
#[tactic(auto, unfolding(run_machine::specs::Numbers::good))]
fn is_good(t: Sheet, state: State, store: &[i32]) -> bool
    requires { check_of t ≡ accepted }
    ensures { result ≡ good (view_sheet t) state store.now }
{
    store.len() == run_machine::STORE
        && run_store::quiet(store, state.counts)
        && none_from(state.counts, t.queues as usize)
        && run_store::zeros_from(&state.vars, t.variables as usize)
        && cursors_good(t, state.vars)
}

// The sheet's own refusal, then 8.
pub fn stands(t: Sheet, state: State, store: &[i32]) -> Result<(), Refusal>
    ensures { paper result ≡ stands_of t state store.now }
{
    sheet::check(t)?;
    if !is_good(t, state, store) {
        return Err(Reason::BadState.into());
    }
    Ok(())
}
