// The judge of one operator after the operators kept before it: refusals 4 to 7.
#![tactic(auto)]

mod steps;

ghost use Rattle.std.specs.Prelude.{◌≡◌, true, ◌&&◌, [], ◌≤◌, ltb};
ghost use Rattle.base_lists.specs.Lists.{all, has};
ghost use Rattle.base_refusal.specs.Refusal.{number_or_zero};
ghost use Rattle.sheet_operator.specs.Op.{names};
ghost use Rattle.sheet_operator.specs.Memory.{PLACES, ways, view, Ready};
ghost use Rattle.sheet_sets.specs.Sets.{FLAGS};
ghost use Rattle.sheet_judge.specs.Judge.{four, five, variables_good, six, seven, judge_by, known_of, after, whole};
ghost use Rattle.sheet_judge.specs.Seen.{known_by, Flagged, Admits};

use base_refusal::Reason;
use sheet_operator::{Kind, Operator};
use sheet_sets::FLAGS;

// What the operators kept so far define, read and name, and which of the variables are cursors.
#[derive(Clone, Copy)]
pub struct Seen {
    pub defined: [bool; FLAGS],
    pub used: [bool; FLAGS],
    pub named: [bool; FLAGS],
    pub cursor: [bool; FLAGS],
}

// The in queue is below Q and defined.
fn in_good(p: u8, queues: u8, defined: [bool; FLAGS]) -> bool
    ensures { result ≡ (ltb p queues && has defined p) }
{
    p < queues && sheet_sets::flag(defined, p)
}

fn ins_good(ps: [u8; sheet_operator::PLACES], n: usize, queues: u8, defined: [bool; FLAGS]) -> bool
    requires { n ≤ PLACES }
    ensures { result ≡ all (λ p. ltb p queues && has defined p) (ways n ps) }
{
    for j in 0..n {
        if !in_good(ps[j], queues, defined) {
            return false;
        }
    }
    true
}

fn outs_good(qs: [u8; sheet_operator::PLACES], n: usize, queues: u8) -> bool
    requires { n ≤ PLACES }
    ensures { result ≡ all (λ q. ltb q queues) (ways n qs) }
{
    for j in 0..n {
        if queues <= qs[j] {
            return false;
        }
    }
    true
}

// The functions below take an operator whose count is in range and that is not empty: what `check_places` lets pass is such a one.

// Variables below V, and none given where none is taken.
fn variables_good(o: Operator, variables: u8) -> bool
    requires { Ready o }
    ensures { result ≡ variables_good variables (view o) }
{
    match o.kind {
        Kind::Line => steps::steps_variables_good(o.steps, o.count as usize, variables),
        Kind::Latest | Kind::Deal | Kind::Gather => o.variable < variables,
        Kind::Empty | Kind::Double => true,
    }
}

// 4
#[tactic(auto, unfolding(crate::specs::Judge::four))]
fn queues_good(queues: u8, seen: Seen, o: Operator) -> bool
    requires { Ready o }
    ensures { result ≡ four queues (known_by seen) (view o) }
{
    let s = sheet_operator::shape_of(o.kind, o.count);
    ins_good(o.ins, s.ins as usize, queues, seen.defined)
        && outs_good(o.outs, s.outs as usize, queues)
}

// 5
#[tactic(auto, unfolding(crate::specs::Judge::five))]
fn queues_fresh(seen: Seen, o: Operator) -> bool
    requires { Ready o × Flagged o }
    ensures { result ≡ five (known_by seen) (view o) }
{
    let s = sheet_operator::shape_of(o.kind, o.count);
    sheet_sets::is_fresh(seen.defined, o.outs, s.outs as usize)
        && sheet_sets::is_fresh(seen.used, o.ins, s.ins as usize)
}

// 6
#[tactic(auto, unfolding(crate::specs::Judge::six))]
fn variables_apart(variables: u8, seen: Seen, o: Operator) -> bool
    requires { Ready o }
    ensures { result ≡ six variables (known_by seen) (view o) }
{
    variables_good(o, variables)
        && sheet_sets::names_apart(seen.cursor, o)
        && sheet_sets::cursor_apart(seen.named, o)
}

// 7
#[tactic(auto, unfolding(crate::specs::Judge::seven))]
fn fields_good(o: Operator) -> bool
    requires { Ready o }
    ensures { result ≡ seven (view o) }
{
    match o.kind {
        Kind::Line => steps::steps_places_good(o.steps, o.count as usize),
        Kind::Latest => o.field < base_bounds::FIELDS,
        _ => true,
    }
}

// The first of 4 to 7 that the operator breaks after those seen.
fn judge(queues: u8, variables: u8, seen: Seen, o: Operator) -> Result<(), Reason>
    requires { Ready o × (queues ≤ FLAGS) }
    ensures { number_or_zero result ≡ judge_by queues variables (known_by seen) (view o) }
{
    if !queues_good(queues, seen, o) {
        return Err(Reason::BadQueue);
    }
    if !queues_fresh(seen, o) {
        return Err(Reason::QueueNotOnce);
    }
    if !variables_apart(variables, seen, o) {
        return Err(Reason::BadVariable);
    }
    if !fields_good(o) {
        return Err(Reason::BadStep);
    }
    Ok(())
}

// What is known with one operator more.
fn kept(seen: Seen, o: Operator) -> Seen
    requires { Ready o × Flagged o × (all (λ v. ltb v FLAGS) (names (view o)) ≡ true) }
    ensures { known_by result ≡ after (known_by seen) (view o) }
{
    let s = sheet_operator::shape_of(o.kind, o.count);
    let defined = sheet_sets::all_flagged(seen.defined, o.outs, s.outs as usize);
    let used = sheet_sets::all_flagged(seen.used, o.ins, s.ins as usize);
    let named = sheet_sets::names_flagged(seen.named, o);
    let cursor = sheet_sets::cursor_flagged(seen.cursor, o);
    Seen {
        defined,
        used,
        named,
        cursor,
    }
}

// The judge: what is known with the operator too, where it is kept.
pub fn admit(queues: u8, variables: u8, seen: Seen, o: Operator) -> Result<Seen, Reason>
    requires { Ready o × (queues ≤ FLAGS) × (variables ≤ FLAGS) }
    ensures { Admits queues variables seen o result }
{
    judge(queues, variables, seen, o)?;
    Ok(kept(seen, o))
}

// Every queue below Q is defined.
pub fn all_defined(seen: Seen, queues: u8) -> bool
    ensures { result ≡ whole queues (known_by seen) }
{
    for q in 0..queues {
        if !sheet_sets::flag(seen.defined, q) {
            return false;
        }
    }
    true
}

// What is known after the head: the inputs are defined.
pub fn inputs_seen(inputs: u8) -> Seen
    requires { inputs ≤ FLAGS }
    ensures { known_by result ≡ known_of inputs [] }
{
    let none = [false; FLAGS];
    let mut defined = none;
    for q in 0..inputs {
        defined[q as usize] = true;
    }
    Seen {
        defined,
        used: none,
        named: none,
        cursor: none,
    }
}
