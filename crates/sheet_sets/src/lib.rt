// Sets of queue or variable numbers as flags: what an operator's numbers have in common with one, and what they add to it.
#![tactic(auto)]

mod steps;

ghost use Rattle.std.specs.Prelude.{◌≡◌, true, not, ◌||◌, ◌≤◌, set, ltb};
ghost use Rattle.base_lists.specs.Lists.{all, member, fresh, has};
ghost use Rattle.sheet_operator.specs.Op.{names, cursors};
ghost use Rattle.sheet_operator.specs.Memory.{PLACES, ways, view, Ready};
ghost use Rattle.sheet_sets.specs.Sets.{FLAGS};

use sheet_operator::{Kind, Operator};

// A set of queue or variable numbers has a flag for each number below this.
pub const FLAGS: usize = 32;

pub fn flag(s: [bool; FLAGS], k: u8) -> bool
    ensures { result ≡ has s k }
{
    let i = k as usize;
    if i < FLAGS {
        return s[i];
    }
    false
}

pub fn flagged(s: [bool; FLAGS], k: u8) -> [bool; FLAGS]
    ensures { result ≡ set s k true }
{
    let mut r = s;
    let i = k as usize;
    if i < FLAGS {
        r[i] = true;
        return r;
    }
    r
}

pub fn all_flagged(s: [bool; FLAGS], qs: [u8; sheet_operator::PLACES], n: usize) -> [bool; FLAGS]
    requires { (n ≤ PLACES) × (all (λ q. ltb q FLAGS) (ways n qs) ≡ true) }
    ensures { has result ≡ (λ k. member k (ways n qs) || has s k) }
{
    let mut r = s;
    for j in 0..n {
        let q = qs[j] as usize;
        r[q] = true;
    }
    r
}

// None of the queues is in the set, and none stands there twice.
pub fn is_fresh(s: [bool; FLAGS], qs: [u8; sheet_operator::PLACES], n: usize) -> bool
    requires { (n ≤ PLACES) × (all (λ q. ltb q FLAGS) (ways n qs) ≡ true) }
    ensures { result ≡ fresh (has s) (ways n qs) }
{
    let mut t = s;
    for j in 0..n {
        let q = qs[j] as usize;
        if t[q] {
            return false;
        }
        t[q] = true;
    }
    true
}

// The functions below take an operator that is `Ready`.

// No variable that the operator names is in the set.
pub fn names_apart(s: [bool; FLAGS], o: Operator) -> bool
    requires { Ready o }
    ensures { result ≡ all (λ v. not (has s v)) (names (view o)) }
{
    match o.kind {
        Kind::Line => steps::steps_apart(s, o.steps, o.count as usize),
        Kind::Latest | Kind::Deal | Kind::Gather => !flag(s, o.variable),
        Kind::Empty | Kind::Double => true,
    }
}

// The set and the variables that the operator names.
pub fn names_flagged(s: [bool; FLAGS], o: Operator) -> [bool; FLAGS]
    requires { Ready o × (all (λ v. ltb v FLAGS) (names (view o)) ≡ true) }
    ensures { has result ≡ (λ k. member k (names (view o)) || has s k) }
{
    match o.kind {
        Kind::Line => steps::steps_flagged(s, o.steps, o.count as usize),
        Kind::Latest | Kind::Deal | Kind::Gather => flagged(s, o.variable),
        Kind::Empty | Kind::Double => s,
    }
}

// The operator's cursor, if it has one, is not in the set.
pub fn cursor_apart(s: [bool; FLAGS], o: Operator) -> bool
    requires { Ready o }
    ensures { result ≡ all (λ v. not (has s v)) (cursors (view o)) }
{
    match o.kind {
        Kind::Deal | Kind::Gather => !flag(s, o.variable),
        _ => true,
    }
}

pub fn cursor_flagged(s: [bool; FLAGS], o: Operator) -> [bool; FLAGS]
    requires { Ready o × (all (λ v. ltb v FLAGS) (names (view o)) ≡ true) }
    ensures { has result ≡ (λ k. member k (cursors (view o)) || has s k) }
{
    match o.kind {
        Kind::Deal | Kind::Gather => flagged(s, o.variable),
        _ => s,
    }
}
