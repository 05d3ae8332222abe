// Fuse: a line and the line that reads its out queue become one, and the queue between them goes.
#![tactic(auto)]

ghost use Rattle.std.specs.Prelude.{◌≡◌, ◌++◌, map, ◌+◌, ◌<◌, ◌≤◌, take};
ghost use Rattle.base_lists.specs.Lists.{pad};
ghost use Rattle.sheet_step.specs.Step.{no_step};
ghost use Rattle.sheet_operator.specs.Op.{line};
ghost use Rattle.sheet_operator.specs.Memory.{PLACES, view, memory, steps_in, no_operator};
ghost use Rattle.base_bounds.specs.Bounds.{OPERATORS};
ghost use Rattle.sheet.specs.Answer.{accepted};
ghost use Rattle.sheet.specs.Sheet.{view_sheet};
ghost use Rattle.sheet.specs.Check.{check_of};
ghost use Rattle.rewrite_rules.specs.Rewrite.{in_of, out_of, steps_of, fallen, fuse};
ghost use Rattle.rewrite_rules.specs.Answers.{answering, Rewrites};
ghost use Rattle.rewrite_rules.specs.Working.{TwoLines};
ghost use Rattle.rewrite_fuse.specs.Working.{without, skip, lowered_in};

use base_refusal::{Reason, Refusal};
use sheet::Sheet;
use sheet_operator::Operator;
use sheet_step::Step;

// Queue m goes: a higher queue number falls by one.
fn fallen(m: u8, q: u8) -> u8
    ensures { result ≡ fallen m q }
{
    if m < q { q - 1 } else { q }
}

// The same of all places: 0, which an unused place holds, stays.
fn all_fallen(m: u8, qs: [u8; sheet_operator::PLACES]) -> [u8; sheet_operator::PLACES]
    ensures { result ≡ map (fallen m) qs }
{
    let mut r = [0u8; sheet_operator::PLACES];
    for k in 0..sheet_operator::PLACES {
        r[k] = fallen(m, qs[k]);
    }
    r
}

fn lowered(m: u8, o: Operator) -> Operator
    ensures { result ≡ lowered_in m o }
{
    Operator {
        ins: all_fallen(m, o.ins),
        outs: all_fallen(m, o.outs),
        ..o
    }
}

// The first n of ss and then the first m of ts.
fn joined_steps(
    ss: [Step; sheet_operator::PLACES],
    n: usize,
    ts: [Step; sheet_operator::PLACES],
    m: usize,
) -> [Step; sheet_operator::PLACES]
    requires { (n + m ≤ PLACES) × (ss ≡ pad PLACES no_step (steps_in n ss)) }
    ensures { result ≡ pad PLACES no_step (steps_in n ss ++ steps_in m ts) }
{
    let mut r = ss;
    for k in 0..m {
        r[n + k] = ts[k];
    }
    r
}

// One line with the in queue of o, the out queue of p and the steps of both.
fn joined(o: Operator, p: Operator) -> Operator
    requires { TwoLines o p × (o.count + p.count ≤ PLACES) }
    ensures { result ≡ memory (line (in_of (view o)) (out_of (view p)) (steps_of (view o) ++ steps_of (view p))) }
{
    let outs = p.outs;
    Operator {
        count: o.count + p.count,
        outs,
        steps: joined_steps(o.steps, o.count as usize, p.steps, p.count as usize),
        ..o
    }
}

// Where the operator that comes to place k stood, before operator j went.
fn skip(j: usize, k: usize) -> usize
    requires { k < OPERATORS }
    ensures { result ≡ skip j k }
{
    if k < j { k } else { k + 1 }
}

// The first n operators without operator j, and without queue m.
fn closed_up(
    operators: [Operator; sheet::OPERATORS],
    n: usize,
    j: usize,
    m: u8,
) -> [Operator; sheet::OPERATORS]
    requires { (n ≤ OPERATORS) × (j < n) }
    ensures { result ≡ pad OPERATORS no_operator (map (lowered_in m) (without j (take n operators))) }
{
    let mut r = [sheet_decode::NO_OPERATOR; sheet::OPERATORS];
    for k in 0..n - 1 {
        r[k] = lowered(m, operators[skip(j, k)]);
    }
    r
}

// Fuses line a of a calm sheet with the line that reads its out queue.
pub fn fuse_calm(t: Sheet, a: u8) -> Result<Sheet, Refusal>
    requires { check_of t ≡ accepted }
    ensures { Rewrites (answering (fuse (view_sheet t) a)) result }
{
    let i = a as usize;
    let j = rewrite_rules::line_after(t, a)?;
    let o = t.operators[i];
    let p = t.operators[j];
    if (sheet_operator::PLACES as u8) < o.count + p.count {
        return Err(Reason::TooLarge.into());
    }
    let mut operators = t.operators;
    operators[i] = joined(o, p);
    Ok(Sheet {
        queues: t.queues - 1,
        count: t.count - 1,
        operators: closed_up(operators, t.count as usize, j, o.outs[0]),
        ..t
    })
}
