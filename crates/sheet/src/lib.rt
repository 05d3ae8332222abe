// A sheet in memory, and its check.
#![tactic(auto)]

ghost use Rattle.std.specs.Prelude.{◌≡◌, true, ◌||◌, ltb};
ghost use Rattle.sheet_operator.specs.Memory.{vacant};
ghost use Rattle.sheet_format.specs.Head.{head_good};
ghost use Rattle.sheet.specs.Answer.{paper};
ghost use Rattle.sheet.specs.Check.{vacant_from, check_of};
ghost use Rattle.sheet.specs.Judges.{Judged, Judges};

use base_refusal::{Reason, Refusal};
use sheet_judge::Seen;
use sheet_operator::Operator;

pub const OPERATORS: usize = base_bounds::OPERATORS as usize;

#[derive(Clone, Copy)]
pub struct Sheet {
    pub inputs: u8,
    pub queues: u8,
    pub variables: u8,
    pub count: u8,
    pub operators: [Operator; OPERATORS],
}

// What is known with an operator more, where it is kept.
fn judge_operator(t: Sheet, seen: Seen, o: Operator) -> Result<Seen, Reason>
    requires { head_good t.inputs t.queues t.variables t.count ≡ true }
    ensures { Judged t seen o result }
{
    sheet_operator::check_places(o)?;
    sheet_judge::admit(t.queues, t.variables, seen, o)
}

// What is known of the operators below N, each after those before it; or the first that is refused.
fn judge_operators(t: Sheet) -> Result<Seen, Refusal>
    requires { head_good t.inputs t.queues t.variables t.count ≡ true }
    ensures { Judges t result }
{
    let n = t.count as usize;
    let mut seen = sheet_judge::inputs_seen(t.inputs);
    for i in 0..n {
        match judge_operator(t, seen, t.operators[i]) {
            Ok(next) => seen = next,
            Err(reason) => return Err(reason.at(i + 1)),
        }
    }
    Ok(seen)
}

// A place from n on holds the empty operator.
fn vacant_past(n: usize, i: usize, o: Operator) -> bool
    ensures { result ≡ (ltb i n || vacant o) }
{
    i < n || sheet_operator::is_vacant(o)
}

fn vacant_from(t: Sheet) -> bool
    ensures { result ≡ vacant_from t }
{
    let n = t.count as usize;
    for i in 0..OPERATORS {
        if !vacant_past(n, i, t.operators[i]) {
            return false;
        }
    }
    true
}

// Any sheet in memory: accepted, or refusal 1 to 7 with its record.
pub fn check(t: Sheet) -> Result<(), Refusal>
    ensures { paper result ≡ check_of t }
{
    if !sheet_decode::head_good(t.inputs, t.queues, t.variables, t.count) {
        return Err(Reason::BadHead.at(0));
    }
    let seen = judge_operators(t)?;
    let past = t.count as usize + 1;
    if !vacant_from(t) {
        return Err(Reason::BadLength.at(past));
    }
    if !sheet_judge::all_defined(seen, t.queues) {
        return Err(Reason::QueueNotOnce.at(past));
    }
    Ok(())
}
