// Reorder: two lines exchange their steps, where no step takes a variable and neither line touches a field that the other writes.
#![tactic(auto)]

ghost use Rattle.std.specs.Prelude.{◌≡◌, true, cond, not, [], ◌∷◌, ◌≤◌, eqb};
ghost use Rattle.base_lists.specs.Lists.{all, member};
ghost use Rattle.sheet_step.specs.Step.{row_of};
ghost use Rattle.sheet_operator.specs.Op.{line};
ghost use Rattle.sheet_operator.specs.Memory.{PLACES, view, memory, steps_in};
ghost use Rattle.sheet.specs.Answer.{accepted};
ghost use Rattle.sheet.specs.Sheet.{view_sheet};
ghost use Rattle.sheet.specs.Check.{check_of};
ghost use Rattle.rewrite_rules.specs.Rewrite.{is_line, in_of, out_of, steps_of, masked, touches_none, leaves, reorder};
ghost use Rattle.rewrite_rules.specs.Answers.{answering, Rewrites};
ghost use Rattle.rewrite_rules.specs.Working.{TwoLines};
ghost use Rattle.rewrite_reorder.specs.Working.{touched, step_leaves, may_exchange};

use base_refusal::{Reason, Refusal};
use sheet::Sheet;
use sheet_operator::Operator;
use sheet_step::Step;

// One bit of a mask: it names field x where it is 1.
fn in_mask(bit: u8, x: u8, f: u8) -> bool
    ensures { result ≡ member f (cond (eqb bit 1) (x ∷ []) []) }
{
    bit == 1 && f == x
}

// Whether the mask names field f of a step: 1 is field p, 2 is field r.
fn named(mask: u8, t: Step, f: u8) -> bool
    ensures { result ≡ member f (masked mask t) }
{
    in_mask(mask % 2, t.p, f) || in_mask(mask / 2, t.r, f)
}

// The step reads or writes field f.
fn touches(t: Step, f: u8) -> bool
    ensures { result ≡ touched t f }
{
    let w = sheet_step::row_of(t.func);
    named(w.reads, t, f) || named(w.writes, t, f)
}

// One bit of a mask: where it is 1, the step does not touch field f.
fn field_left(bit: u8, f: u8, t: Step) -> bool
    ensures { result ≡ all (λ x. not (touched t x)) (cond (eqb bit 1) (f ∷ []) []) }
{
    bit != 1 || !touches(t, f)
}

// No field that s writes is read or written by t.
fn step_left(s: Step, t: Step) -> bool
    ensures { result ≡ step_leaves s t }
{
    let mask = sheet_step::row_of(s.func).writes;
    field_left(mask % 2, s.p, t) && field_left(mask / 2, s.r, t)
}

fn steps_left(s: Step, o: Operator) -> bool
    requires { o.count ≤ PLACES }
    ensures { result ≡ all (step_leaves s) (steps_in o.count o.steps) }
{
    for k in 0..o.count as usize {
        if !step_left(s, o.steps[k]) {
            return false;
        }
    }
    true
}

// No field that the steps of o write is read or written by those of p.
fn leaves(o: Operator, p: Operator) -> bool
    requires { (o.count ≤ PLACES) × (p.count ≤ PLACES) }
    ensures { result ≡ leaves (steps_in o.count o.steps) (steps_in p.count p.steps) }
{
    for k in 0..o.count as usize {
        if !steps_left(o.steps[k], p) {
            return false;
        }
    }
    true
}

fn touches_variable(t: Step) -> bool
    ensures { result ≡ (row_of t.func).variable }
{
    sheet_step::row_of(t.func).variable
}

// No step takes a variable.
fn touches_none(o: Operator) -> bool
    requires { o.count ≤ PLACES }
    ensures { result ≡ all touches_none (steps_in o.count o.steps) }
{
    for k in 0..o.count as usize {
        if touches_variable(o.steps[k]) {
            return false;
        }
    }
    true
}

// Whether two lines may exchange their steps.
fn apart(o: Operator, p: Operator) -> bool
    requires { (o.count ≤ PLACES) × (p.count ≤ PLACES) × (is_line (view o) ≡ true) × (is_line (view p) ≡ true) }
    ensures { result ≡ may_exchange (view o) (view p) }
{
    touches_none(o) && touches_none(p) && leaves(o, p) && leaves(p, o)
}

// Line o with the steps of line p.
fn with_steps(o: Operator, p: Operator) -> Operator
    requires { TwoLines o p }
    ensures { result ≡ memory (line (in_of (view o)) (out_of (view o)) (steps_of (view p))) }
{
    let steps = p.steps;
    Operator {
        count: p.count,
        steps,
        ..o
    }
}

// Reorders line a of a calm sheet and the line that reads its out queue.
pub fn reorder_calm(t: Sheet, a: u8) -> Result<Sheet, Refusal>
    requires { check_of t ≡ accepted }
    ensures { Rewrites (answering (reorder (view_sheet t) a)) result }
{
    let i = a as usize;
    let j = rewrite_rules::line_after(t, a)?;
    let o = t.operators[i];
    let p = t.operators[j];
    if !apart(o, p) {
        return Err(Reason::Forbidden.into());
    }
    let mut operators = t.operators;
    operators[i] = with_steps(o, p);
    operators[j] = with_steps(p, o);
    Ok(Sheet { operators, ..t })
}
