// The variables that a line's steps name, and a set.
ghost use Rattle.std.specs.Prelude.{◌≡◌, true, not, ◌||◌, ◌≤◌, ltb};
ghost use Rattle.base_lists.specs.Lists.{all, member, has, chain};
ghost use Rattle.sheet_step.specs.Step.{step_names};
ghost use Rattle.sheet_operator.specs.Memory.{PLACES, steps_in};
ghost use Rattle.sheet_sets.specs.Sets.{FLAGS};

use sheet_step::Step;

// The variable that the step names, if any, is not in the set.
pub fn step_apart(s: [bool; crate::FLAGS], t: Step) -> bool
    ensures { result ≡ all (λ v. not (has s v)) (step_names t) }
{
    let f = t.func;
    let w = sheet_step::row_of(f);
    if w.variable {
        return !crate::flag(s, t.variable);
    }
    true
}

pub fn steps_apart(s: [bool; crate::FLAGS], ss: [Step; sheet_operator::PLACES], n: usize) -> bool
    requires { n ≤ PLACES }
    ensures { result ≡ all (λ t. all (λ v. not (has s v)) (step_names t)) (steps_in n ss) }
{
    for j in 0..n {
        let t = ss[j];
        if !step_apart(s, t) {
            return false;
        }
    }
    true
}

// The set and the variable that the step names, if any.
pub fn step_flagged(s: [bool; crate::FLAGS], t: Step) -> [bool; crate::FLAGS]
    requires { all (λ v. ltb v FLAGS) (step_names t) ≡ true }
    ensures { has result ≡ (λ k. member k (step_names t) || has s k) }
{
    let f = t.func;
    let w = sheet_step::row_of(f);
    if w.variable {
        return crate::flagged(s, t.variable);
    }
    s
}

pub fn steps_flagged(
    s: [bool; crate::FLAGS],
    ss: [Step; sheet_operator::PLACES],
    n: usize,
) -> [bool; crate::FLAGS]
    requires { (n ≤ PLACES) × (all (λ v. ltb v FLAGS) (chain step_names (steps_in n ss)) ≡ true) }
    ensures { has result ≡ (λ k. member k (chain step_names (steps_in n ss)) || has s k) }
{
    let mut r = s;
    for j in 0..n {
        let t = ss[j];
        let next = step_flagged(r, t);
        r = next;
    }
    r
}
