// A step of a line: its table, its judge, its twelve bytes.
#![tactic(auto)]

ghost use Rattle.std.specs.Prelude.{◌≡◌, ◌+◌, ◌≤◌, length, drop};
ghost use Rattle.std.proofs.lemmas.List.Edits.{sets};
ghost use Rattle.sheet_step.specs.Step.{code_of, func_of, row_of, known_func, step_variable, unused_z, field_place, step_places, blank, STEP_BYTES, step_bytes};
ghost use Rattle.sheet_step.specs.Step.{step_of};

pub const NO_VARIABLE: u8 = 255;

pub const STEP_BYTES: usize = 12;

#[derive(Clone, Copy, Debug, PartialEq, Eq)]
pub enum Func {
    None,
    Keep,
    Add,
    Copy,
    Count,
    Stamp,
}

#[derive(Clone, Copy, Debug, PartialEq, Eq)]
pub struct Step {
    pub func: Func,
    pub variable: u8,
    pub p: u8,
    pub r: u8,
    pub low: i32,
    pub high: i32,
}

// What a function takes (p always), and which of the fields p (1) and r (2) it reads and writes.
#[derive(Clone, Copy)]
pub struct Row {
    pub arity: u8,
    pub variable: bool,
    pub r: bool,
    pub low: bool,
    pub high: bool,
    pub reads: u8,
    pub writes: u8,
}

const TABLE: [Row; 6] = [
    Row {
        arity: 0,
        variable: false,
        r: false,
        low: false,
        high: false,
        reads: 0,
        writes: 0,
    },
    Row {
        arity: 3,
        variable: false,
        r: false,
        low: true,
        high: true,
        reads: 1,
        writes: 0,
    },
    Row {
        arity: 2,
        variable: false,
        r: false,
        low: true,
        high: false,
        reads: 1,
        writes: 1,
    },
    Row {
        arity: 2,
        variable: false,
        r: true,
        low: false,
        high: false,
        reads: 1,
        writes: 2,
    },
    Row {
        arity: 2,
        variable: true,
        r: false,
        low: false,
        high: false,
        reads: 0,
        writes: 1,
    },
    Row {
        arity: 2,
        variable: true,
        r: false,
        low: false,
        high: false,
        reads: 0,
        writes: 1,
    },
];

pub const NO_STEP: Step = Step {
    func: Func::None,
    variable: 0,
    p: 0,
    r: 0,
    low: 0,
    high: 0,
};

// The number of a function in a record, and back: every other number is none.
impl From<Func> for u8 {
    ghost from_gives = { λ f n. n ≡ code_of f };

    fn from(f: Func) -> u8 {
        match f {
            Func::None => 0,
            Func::Keep => 1,
            Func::Add => 2,
            Func::Copy => 3,
            Func::Count => 4,
            Func::Stamp => 5,
        }
    }
}

impl From<u8> for Func {
    ghost from_gives = { λ n f. f ≡ func_of n };

    #[tactic(auto, unfolding(crate::specs::Step::func_of))]
    fn from(n: u8) -> Func {
        match n {
            1 => Func::Keep,
            2 => Func::Add,
            3 => Func::Copy,
            4 => Func::Count,
            5 => Func::Stamp,
            _ => Func::None,
        }
    }
}

pub fn known(f: Func) -> bool
    ensures { result ≡ known_func f }
{
    f != Func::None
}

// The table's row of a function.
pub fn row_of(f: Func) -> Row
    ensures { result ≡ row_of f }
{
    TABLE[u8::from(f) as usize]
}

// The variable is below v where one is taken, and NO_VARIABLE where none is.
#[tactic(auto, unfolding(crate::specs::Step::step_variable))]
pub fn variable_good(t: Step, v: u8) -> bool
    ensures { result ≡ step_variable v t }
{
    if !known(t.func) {
        return true;
    }
    if row_of(t.func).variable {
        t.variable < v
    } else {
        t.variable == NO_VARIABLE
    }
}

#[tactic(auto, unfolding(crate::specs::Step::field_place))]
fn field_place(taken: bool, f: u8) -> bool
    ensures { result ≡ field_place taken f }
{
    if taken {
        f < base_bounds::FIELDS
    } else {
        f == 0
    }
}

#[tactic(auto, unfolding(crate::specs::Step::unused_z))]
fn unused(taken: bool, z: i32) -> bool
    ensures { result ≡ unused_z taken z }
{
    taken || z == 0
}

// The function is known, its fields are below FIELDS, and what it does not take is 0.
#[tactic(auto, unfolding(crate::specs::Step::step_places))]
pub fn places_good(t: Step) -> bool
    ensures { result ≡ step_places t }
{
    let w = row_of(t.func);
    known(t.func)
        && t.p < base_bounds::FIELDS
        && field_place(w.r, t.r)
        && unused(w.low, t.low)
        && unused(w.high, t.high)
}

// A place that holds no step.
#[tactic(auto, unfolding(crate::specs::Step::blank))]
pub fn is_blank(t: Step) -> bool
    ensures { result ≡ blank t }
{
    t == NO_STEP
}

pub fn step_at(s: &[u8], at: usize) -> Step
    requires { at + STEP_BYTES ≤ length s.now }
    ensures { result ≡ step_of (drop at s.now) }
{
    Step {
        func: Func::from(s[at]),
        variable: s[at + 1],
        p: s[at + 2],
        r: s[at + 3],
        low: base_number::int_at(s, at + 4),
        high: base_number::int_at(s, at + 8),
    }
}

pub fn put_step(s: &mut [u8], at: usize, t: Step)
    requires { at + STEP_BYTES ≤ length s.old }
    ensures { s.new ≡ sets s.old at (step_bytes t) }
{
    s[at..at + 4].copy_from_slice(&[u8::from(t.func), t.variable, t.p, t.r]);
    base_number::put_int(s, at + 4, t.low);
    base_number::put_int(s, at + 8, t.high);
}
