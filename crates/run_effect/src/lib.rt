// What one operator does with the item that it takes, and with the variables. Nothing here knows of queues.
#![tactic(auto)]

ghost use Rattle.std.specs.Prelude.{◌≡◌, true, cond, ◌<◌, get_or, set, pos};
ghost use Rattle.base_bounds.specs.Bounds.{FIELDS, VARIABLES};
ghost use Rattle.sheet_operator.specs.Memory.{view, steps_in};
ghost use Rattle.run_effect.specs.Flow.{field_of, var_of, with_field, with_var, dropped, add_of, count_of, stepped, lined};
ghost use Rattle.base_number.specs.Number.{between};
ghost use Rattle.run_effect.specs.Effect.{cursor_at, moved_on, line_result, effect, waits, in_ways, cursor_good, puts_of, result_of, sent};
ghost use Rattle.run_effect.specs.Able.{StepAble, Able};

use run_store::Item;
use sheet_operator::{Kind, Operator};
use sheet_step::{Func, Step};

pub const VARIABLES: usize = base_bounds::VARIABLES as usize;

// An item on its way through a line, and the variables.
#[derive(Clone, Copy)]
pub struct Flow {
    pub kept: bool,
    pub item: Item,
    pub vars: [i32; VARIABLES],
}

// The queues that a firing puts its item on.
#[derive(Clone, Copy)]
pub enum Puts {
    Nowhere,
    One(u8),
    Two(u8, u8),
}

// What a firing does: where it puts which item, and the variables afterwards.
#[derive(Clone, Copy)]
pub struct Effect {
    pub puts: Puts,
    pub item: Item,
    pub vars: [i32; VARIABLES],
}

fn field(x: Flow, p: usize) -> i32
    requires { p < FIELDS }
    ensures { result ≡ field_of x p }
{
    x.item.f[p]
}

// Drops the item unless low <= field p <= high.
fn keep(x: Flow, p: usize, low: i32, high: i32) -> Flow
    requires { p < FIELDS }
    ensures { result ≡ cond (between low (field_of x p) high) x (dropped x) }
{
    if base_number::is_between(low, field(x, p), high) {
        return x;
    }
    Flow { kept: false, ..x }
}

// Field p becomes z.
fn with_field(x: Flow, p: usize, z: i32) -> Flow
    requires { p < FIELDS }
    ensures { result ≡ with_field x p z }
{
    let mut y = x;
    y.item.f[p] = z;
    y
}

// Field p plus low, wrapping.
fn add(x: Flow, p: usize, low: i32) -> Flow
    requires { p < FIELDS }
    ensures { result ≡ with_field x p (add_of (field_of x p) low) }
{
    with_field(x, p, base_number::wrap_add(field(x, p), low))
}

// Field r becomes field p.
fn copy(x: Flow, p: usize, r: usize) -> Flow
    requires { (p < FIELDS) × (r < FIELDS) }
    ensures { result ≡ with_field x r (field_of x p) }
{
    with_field(x, r, field(x, p))
}

// Variable v plus 1, wrapping; field p becomes it.
fn count(x: Flow, v: usize, p: usize) -> Flow
    requires { (v < VARIABLES) × (p < FIELDS) }
    ensures { result ≡ with_field (with_var x v (count_of (var_of x v))) p (count_of (var_of x v)) }
{
    let n = base_number::wrap_add(x.vars[v], 1);
    let mut y = x;
    y.vars[v] = n;
    with_field(y, p, n)
}

// Field p becomes variable v.
fn stamp(x: Flow, v: usize, p: usize) -> Flow
    requires { (v < VARIABLES) × (p < FIELDS) }
    ensures { result ≡ with_field x p (var_of x v) }
{
    with_field(x, p, x.vars[v])
}

// One step over an item that may have been dropped already.
fn apply(s: Step, x: Flow) -> Flow
    requires { StepAble s }
    ensures { result ≡ stepped s x }
{
    if !x.kept {
        return x;
    }
    let p = s.p as usize;
    match s.func {
        Func::None => x,
        Func::Keep => keep(x, p, s.low, s.high),
        Func::Add => add(x, p, s.low),
        Func::Copy => copy(x, p, s.r as usize),
        Func::Count => count(x, s.variable as usize, p),
        Func::Stamp => stamp(x, s.variable as usize, p),
    }
}

// A line's steps over an item.
fn run_line(o: Operator, x: Flow) -> Flow
    requires { Able o }
    ensures { result ≡ lined (steps_in o.count o.steps) x }
{
    let n = o.count as usize;
    let mut y = x;
    for i in 0..n {
        y = apply(o.steps[i], y);
    }
    y
}

// The number in an operator's cursor.
fn cursor(v: u8, vars: [i32; VARIABLES], ways: u8) -> usize
    requires { (v < VARIABLES) × (in_ways (get_or vars v (pos 0)) ways ≡ true) }
    ensures { (result ≡ cursor_at v vars) × (result < ways) }
{
    vars[v as usize] as usize
}

// The variables with the cursor moved on by one.
fn move_on(v: u8, vars: [i32; VARIABLES], ways: u8) -> [i32; VARIABLES]
    requires { (v < VARIABLES) × (in_ways (get_or vars v (pos 0)) ways ≡ true) }
    ensures { result ≡ moved_on v ways vars }
{
    let c = cursor(v, vars, ways);
    let mut moved = vars;
    moved[v as usize] = ((c + 1) % (ways as usize)) as i32;
    moved
}

// Whether a firing from queue q has to wait: a gather's cursor is at another queue.
#[tactic(auto, unfolding(crate::specs::Effect::waits))]
pub fn has_to_wait(o: Operator, q: u8, vars: [i32; VARIABLES]) -> bool
    requires { Able o × (cursor_good (view o) vars ≡ true) }
    ensures { result ≡ waits (view o) q vars }
{
    match o.kind {
        Kind::Gather => o.ins[cursor(o.variable, vars, o.count)] != q,
        _ => false,
    }
}

fn line_effect(q: u8, y: Flow) -> Effect
    ensures { result_of result ≡ line_result q y }
{
    let puts = if y.kept { Puts::One(q) } else { Puts::Nowhere };
    to(puts, y.item, y.vars)
}

fn latest(o: Operator, x: Item, vars: [i32; VARIABLES]) -> [i32; VARIABLES]
    requires { (o.variable < VARIABLES) × (o.field < FIELDS) }
    ensures { result ≡ set vars o.variable (get_or x.f o.field (pos 0)) }
{
    let mut kept = vars;
    kept[o.variable as usize] = x.f[o.field as usize];
    kept
}

fn to(puts: Puts, item: Item, vars: [i32; VARIABLES]) -> Effect
    ensures { result_of result ≡ sent (puts_of puts) item vars }
{
    Effect { puts, item, vars }
}

// What an operator does with the item that it takes.
pub fn act(o: Operator, x: Item, vars: [i32; VARIABLES]) -> Effect
    requires { Able o × (cursor_good (view o) vars ≡ true) }
    ensures { result_of result ≡ effect (view o) x vars }
{
    match o.kind {
        Kind::Empty => to(Puts::Nowhere, x, vars),
        Kind::Line => {
            let start = Flow {
                kept: true,
                item: x,
                vars,
            };
            line_effect(o.outs[0], run_line(o, start))
        }
        Kind::Latest => to(Puts::Nowhere, x, latest(o, x, vars)),
        Kind::Double => to(Puts::Two(o.outs[0], o.outs[1]), x, vars),
        Kind::Deal => {
            let c = cursor(o.variable, vars, o.count);
            to(Puts::One(o.outs[c]), x, move_on(o.variable, vars, o.count))
        }
        Kind::Gather => to(Puts::One(o.outs[0]), x, move_on(o.variable, vars, o.count)),
    }
}

fn in_ways(v: u8, vars: [i32; VARIABLES], ways: u8) -> bool
    requires { v < VARIABLES }
    ensures { result ≡ in_ways (get_or vars v (pos 0)) ways }
{
    let c = vars[v as usize];
    0 <= c && c < (ways as i32)
}

// Whether an operator's cursor, if it has one, lies in its range.
#[tactic(auto, unfolding(crate::specs::Effect::cursor_good))]
pub fn cursor_good(o: Operator, vars: [i32; VARIABLES]) -> bool
    requires { Able o }
    ensures { result ≡ cursor_good (view o) vars }
{
    match o.kind {
        Kind::Deal | Kind::Gather => in_ways(o.variable, vars, o.count),
        _ => true,
    }
}
