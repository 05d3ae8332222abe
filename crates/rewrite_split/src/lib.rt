// The split of a line: a deal, copies of the line, and a gather in its place.
#![tactic(auto)]

ghost use Rattle.std.specs.Prelude.{◌≡◌, cond, ◌&&◌, map, ◌+◌, ◌*◌, ◌-◌, ◌≤◌, ◌<◌, ltb, leb, get_or};
ghost use Rattle.base_lists.specs.Lists.{build, pad, all};
ghost use Rattle.sheet_operator.specs.Op.{line, deal, gather};
ghost use Rattle.sheet_operator.specs.Memory.{PLACES, steps_in, view, memory, no_operator};
ghost use Rattle.base_bounds.specs.Bounds.{OPERATORS, VARIABLES, QUEUES};
ghost use Rattle.sheet.specs.Answer.{accepted};
ghost use Rattle.sheet.specs.Sheet.{view_sheet, memory_sheet};
ghost use Rattle.sheet.specs.Check.{check_of};
ghost use Rattle.rewrite_rules.specs.Rewrite.{parted, touches_none, writes_some, split, pieces};
ghost use Rattle.rewrite_rules.specs.Answers.{Rewrites, answering};
ghost use Rattle.rewrite_split.specs.Working.{LineIn, SplitRoom, Splits};

use base_refusal::{Reason, Refusal};
use sheet::Sheet;
use sheet_operator::{Kind, Operator};
use sheet_step::Step;

const FEWEST_WAYS: u8 = 2;

// The n numbers from q on, and then 0.
fn numbers_from(q: u8, n: usize) -> [u8; sheet_operator::PLACES]
    requires { (n ≤ PLACES) × (q + n ≤ 255) }
    ensures { result ≡ pad PLACES 0 (build n (λ j. q + j)) }
{
    let mut r = [0; sheet_operator::PLACES];
    for j in 0..n {
        r[j] = q + (j as u8);
    }
    r
}

// A deal from p to the k queues from q on.
fn dealing(v: u8, p: u8, q: u8, k: u8) -> Operator
    requires { (k ≤ PLACES) × (q + k ≤ 255) }
    ensures { result ≡ memory (deal v p (build k (λ j. q + j))) }
{
    Operator {
        kind: Kind::Deal,
        count: k,
        variable: v,
        field: 0,
        ins: [p, 0, 0, 0],
        outs: numbers_from(q, k as usize),
        steps: [sheet_step::NO_STEP; sheet_operator::PLACES],
    }
}

// A gather from the k queues from p on to q.
fn gathering(v: u8, q: u8, p: u8, k: u8) -> Operator
    requires { (k ≤ PLACES) × (p + k ≤ 255) }
    ensures { result ≡ memory (gather v q (build k (λ j. p + j))) }
{
    Operator {
        kind: Kind::Gather,
        count: k,
        variable: v,
        field: 0,
        ins: numbers_from(p, k as usize),
        outs: [q, 0, 0, 0],
        steps: [sheet_step::NO_STEP; sheet_operator::PLACES],
    }
}

// A line from p to q with the steps of o.
fn copied_line(o: Operator, p: u8, q: u8) -> Operator
    requires { LineIn o }
    ensures { result ≡ memory (line p q (steps_in o.count o.steps)) }
{
    Operator {
        ins: [p, 0, 0, 0],
        outs: [q, 0, 0, 0],
        ..o
    }
}

// Piece j of the line o, and past the pieces o itself.
fn piece(o: Operator, queues: u8, variables: u8, k: u8, j: usize) -> Operator
    requires { SplitRoom queues variables k × (j ≤ k + 1 → LineIn o) }
    ensures { result ≡ get_or (map memory (pieces queues variables k (view o))) j o }
{
    let ways = k as usize;
    if j == 0 {
        return dealing(variables, o.ins[0], queues, k);
    }
    if j <= ways {
        let p = queues + ((j - 1) as u8);
        let q = queues + k + ((j - 1) as u8);
        return copied_line(o, p, q);
    }
    if j == ways + 1 {
        return gathering(variables + 1, o.outs[0], queues + k, k);
    }
    o
}

// The operator that place m, from i on, is made of.
fn source(i: usize, k: usize, m: usize) -> usize
    requires { (i ≤ m) × (m < OPERATORS) × (k ≤ PLACES) }
    ensures { result ≡ cond (leb (m - i) (k + 1)) i (m - (k + 1)) }
{
    if m - i <= k + 1 { i } else { m - (k + 1) }
}

// The operators of the new sheet: those before i stay, and those after it move up.
fn parts(t: Sheet, i: usize, k: u8) -> [Operator; sheet::OPERATORS]
    requires { Splits t i k }
    ensures { result ≡ pad OPERATORS no_operator (map memory (parted (view_sheet t) i k).ops) }
{
    let mut r = t.operators;
    for m in i..sheet::OPERATORS {
        let o = t.operators[source(i, k as usize, m)];
        r[m] = piece(o, t.queues, t.variables, k, m - i);
    }
    r
}

fn parted_sheet(t: Sheet, i: usize, k: u8) -> Sheet
    requires { Splits t i k }
    ensures { result ≡ memory_sheet (parted (view_sheet t) i k) }
{
    Sheet {
        queues: t.queues + 2 * k,
        variables: t.variables + 2,
        count: t.count + k + 1,
        operators: parts(t, i, k),
        ..t
    }
}

// A step that takes no variable and writes some field.
fn step_free(t: Step) -> bool
    ensures { result ≡ (touches_none t && writes_some t) }
{
    let w = sheet_step::row_of(t.func);
    !w.variable && w.writes != 0
}

fn steps_free(ss: [Step; sheet_operator::PLACES], n: usize) -> bool
    requires { n ≤ PLACES }
    ensures { result ≡ all (λ t. touches_none t && writes_some t) (steps_in n ss) }
{
    for j in 0..n {
        if !step_free(ss[j]) {
            return false;
        }
    }
    true
}

// Operator a is below N, and the ways are in their range.
fn in_range(count: u8, a: u8, k: u8) -> bool
    ensures { result ≡ (ltb a count && (leb 2 k && leb k PLACES)) }
{
    a < count && FEWEST_WAYS <= k && k as usize <= sheet_operator::PLACES
}

// The head of the new sheet stays in its ranges.
fn has_room(queues: u8, variables: u8, count: u8, k: u8) -> bool
    ensures { result ≡ (leb (queues + 2 * k) QUEUES && (leb (variables + 2) VARIABLES && leb (count + k + 1) OPERATORS)) }
{
    let ways = k as usize;
    queues as usize + 2 * ways <= run_machine::QUEUES
        && variables as usize + 2 <= run_machine::VARIABLES
        && count as usize + ways + 1 <= sheet::OPERATORS
}

// The split of an accepted sheet, or refusal 14 to 17.
pub fn split_calm(t: Sheet, a: u8, k: u8) -> Result<Sheet, Refusal>
    requires { check_of t ≡ accepted }
    ensures { Rewrites (answering (split (view_sheet t) a k)) result }
{
    if !in_range(t.count, a, k) {
        return Err(Reason::NoOperator.into());
    }
    let i = a as usize;
    let o = t.operators[i];
    if !rewrite_rules::is_line(o) {
        return Err(Reason::NoLine.into());
    }
    if !has_room(t.queues, t.variables, t.count, k) {
        return Err(Reason::TooLarge.into());
    }
    if !steps_free(o.steps, o.count as usize) {
        return Err(Reason::Forbidden.into());
    }
    Ok(parted_sheet(t, i, k))
}
