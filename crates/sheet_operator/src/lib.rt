// One operator of a sheet in memory: flat places, 0 in those that its kind or count does not use.
#![tactic(auto)]

ghost use Rattle.std.specs.Prelude.{◌≡◌, ◌||◌, eqb, ltb};
ghost use Rattle.base_refusal.specs.Refusal.{number_or_zero};
ghost use Rattle.sheet_step.specs.Step.{blank};
ghost use Rattle.sheet_operator.specs.Memory.{shape_of, zeros_from, blanks_from, tidy, is_empty, memory_number, vacant};

use base_refusal::Reason;
use sheet_step::Step;

// A line's steps, or the ways of a deal or a gather, at the most.
pub const PLACES: usize = 4;

// The same as a count.
const MOST: u8 = PLACES as u8;

#[derive(Clone, Copy, Debug, PartialEq, Eq)]
pub enum Kind {
    Empty,
    Line,
    Latest,
    Double,
    Deal,
    Gather,
}

// `count` is a line's number of steps, or the ways of a deal or a gather; a place that the kind or the count does not use is 0.
#[derive(Clone, Copy)]
pub struct Operator {
    pub kind: Kind,
    pub count: u8,
    pub variable: u8,
    pub field: u8,
    pub ins: [u8; PLACES],
    pub outs: [u8; PLACES],
    pub steps: [Step; PLACES],
}

// What a kind uses of its places.
#[derive(Clone, Copy)]
pub struct Shape {
    pub least: u8,
    pub most: u8,
    pub ins: u8,
    pub outs: u8,
    pub steps: u8,
    pub variable: bool,
    pub field: bool,
}

fn shaped(least: u8, most: u8, ins: u8, outs: u8, steps: u8, variable: bool, field: bool) -> Shape
    ensures { result ≡ record { least = least; most = most; ins = ins; outs = outs; steps = steps; variable = variable; field = field } }
{
    Shape {
        least,
        most,
        ins,
        outs,
        steps,
        variable,
        field,
    }
}

// The least and the most count, how many ins, outs and steps, and whether variable and field are used.
pub fn shape_of(k: Kind, n: u8) -> Shape
    ensures { result ≡ shape_of k n }
{
    match k {
        Kind::Empty => shaped(0, 0, 0, 0, 0, false, false),
        Kind::Line => shaped(1, MOST, 1, 1, n, false, false),
        Kind::Latest => shaped(0, 0, 1, 0, 0, true, true),
        Kind::Double => shaped(0, 0, 1, 2, 0, false, false),
        Kind::Deal => shaped(2, MOST, 1, n, 0, true, false),
        Kind::Gather => shaped(2, MOST, n, 1, 0, true, false),
    }
}

pub fn is_empty(k: Kind) -> bool
    ensures { result ≡ is_empty k }
{
    k == Kind::Empty
}

// A place from n on holds 0.
fn zero_past(n: usize, j: usize, x: u8) -> bool
    ensures { result ≡ (ltb j n || eqb x 0) }
{
    j < n || x == 0
}

fn zeros_from(n: usize, l: [u8; PLACES]) -> bool
    ensures { result ≡ zeros_from n l }
{
    for j in 0..PLACES {
        if !zero_past(n, j, l[j]) {
            return false;
        }
    }
    true
}

// A place from n on holds no step.
fn blank_past(n: usize, j: usize, t: Step) -> bool
    ensures { result ≡ (ltb j n || blank t) }
{
    j < n || sheet_step::is_blank(t)
}

fn blanks_from(n: usize, l: [Step; PLACES]) -> bool
    ensures { result ≡ blanks_from n l }
{
    for j in 0..PLACES {
        if !blank_past(n, j, l[j]) {
            return false;
        }
    }
    true
}

// A place that is used, or 0.
fn used_or_zero(used: bool, x: u8) -> bool
    ensures { result ≡ (used || eqb x 0) }
{
    used || x == 0
}

// The count is in its kind's range, and what the kind or the count does not use is 0.
#[tactic(auto, unfolding(crate::specs::Memory::tidy_as))]
fn is_tidy(o: Operator) -> bool
    ensures { result ≡ tidy o }
{
    let s = shape_of(o.kind, o.count);
    s.least <= o.count
        && o.count <= s.most
        && zeros_from(s.ins as usize, o.ins)
        && zeros_from(s.outs as usize, o.outs)
        && blanks_from(s.steps as usize, o.steps)
        && used_or_zero(s.variable, o.variable)
        && used_or_zero(s.field, o.field)
}

// An operator below N, before the judge: it is not empty, and it is tidy.
#[tactic(auto, unfolding(crate::specs::Memory::memory_number))]
pub fn check_places(o: Operator) -> Result<(), Reason>
    ensures { number_or_zero result ≡ memory_number o }
{
    if is_empty(o.kind) {
        return Err(Reason::BadKind);
    }
    if !is_tidy(o) {
        return Err(Reason::BadLength);
    }
    Ok(())
}

// The place from N on holds the empty operator. Each place is tested itself, and not through `is_tidy`, whose bounds
// come from the kind.
#[tactic(auto, using(crate::proofs::Vacant::vacant_by_places))]
pub fn is_vacant(o: Operator) -> bool
    ensures { result ≡ vacant o }
{
    is_empty(o.kind)
        && o.count == 0
        && zeros_from(0, o.ins)
        && zeros_from(0, o.outs)
        && blanks_from(0, o.steps)
        && o.variable == 0
        && o.field == 0
}
