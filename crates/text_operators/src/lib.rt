// An operator from text, one reader after the other.
#![tactic(auto)]

ghost use Rattle.std.specs.Prelude.{◌≡◌, ◌≤◌, length};
ghost use Rattle.sheet_operator.specs.Op.{line, latest, double};
ghost use Rattle.sheet_operator.specs.Memory.{memory};
ghost use Rattle.text_grammar.specs.Readers.{line_to, latest_to, double_to, two_to, more_to, queue_to, operator};
ghost use Rattle.text_steps.specs.Steps.{Filled, steps_of};
ghost use Rattle.text_ways.specs.Found.{ReadsOp};

use sheet_operator::{Kind, Operator, PLACES};
use text_scan::{Lost, Read};
use text_steps::HeldSteps;

#[tactic(auto, using(base_lists::proofs::Build::build_length))]
fn line_of(p: u8, q: u8, held: HeldSteps) -> Operator
    requires { Filled held }
    ensures { result ≡ memory (line p q (steps_of held)) }
{
    let steps = held.steps;
    Operator {
        kind: Kind::Line,
        count: held.count,
        variable: 0,
        field: 0,
        ins: [p, 0, 0, 0],
        outs: [q, 0, 0, 0],
        steps,
    }
}

// (q) <- steps(p), from the arrow on.
fn line(s: &[u8], at: usize, q: u8) -> Result<Read<Operator>, Lost>
    requires { at ≤ length s.now }
    ensures { ReadsOp s.now at (line_to q) result }
{
    let c = text_names::arrow(s, at)?;
    let held = text_steps::steps(s, c.at)?;
    let p = text_names::queue(s, held.at)?;
    let c = text_scan::sign(s, p.at, b")")?;
    Ok(Read {
        value: line_of(p.value, q, held.value),
        at: c.at,
    })
}

fn latest_of(p: u8, v: u8, f: u8) -> Operator
    ensures { result ≡ memory (latest p v f) }
{
    Operator {
        kind: Kind::Latest,
        count: 0,
        variable: v,
        field: f,
        ins: [p, 0, 0, 0],
        outs: [0; PLACES],
        steps: [sheet_step::NO_STEP; PLACES],
    }
}

// ($v) <- Latest[f](p), from behind the `$` on.
fn latest(s: &[u8], at: usize) -> Result<Read<Operator>, Lost>
    requires { at ≤ length s.now }
    ensures { ReadsOp s.now at latest_to result }
{
    let v = text_names::variable(s, at)?;
    let c = text_scan::sign(s, v.at, b")")?;
    let c = text_names::arrow(s, c.at)?;
    let c = text_scan::sign(s, c.at, b"L")?;
    let c = text_scan::spell(s, c.at, b"atest")?;
    let c = text_scan::sign(s, c.at, b"[")?;
    let f = text_names::byte(s, c.at)?;
    let c = text_scan::sign(s, f.at, b"]")?;
    let c = text_scan::sign(s, c.at, b"(")?;
    let p = text_names::queue(s, c.at)?;
    let c = text_scan::sign(s, p.at, b")")?;
    Ok(Read {
        value: latest_of(p.value, v.value, f.value),
        at: c.at,
    })
}

fn double_of(p: u8, q: u8, r: u8) -> Operator
    ensures { result ≡ memory (double p q r) }
{
    Operator {
        kind: Kind::Double,
        count: 0,
        variable: 0,
        field: 0,
        ins: [p, 0, 0, 0],
        outs: [q, r, 0, 0],
        steps: [sheet_step::NO_STEP; PLACES],
    }
}

// (q, r) <- Double(p), from the arrow on.
fn double(s: &[u8], at: usize, q: u8, r: u8) -> Result<Read<Operator>, Lost>
    requires { at ≤ length s.now }
    ensures { ReadsOp s.now at (double_to q r) result }
{
    let c = text_names::arrow(s, at)?;
    let c = text_scan::sign(s, c.at, b"D")?;
    let c = text_scan::spell(s, c.at, b"ouble")?;
    let c = text_scan::sign(s, c.at, b"(")?;
    let p = text_names::queue(s, c.at)?;
    let c = text_scan::sign(s, p.at, b")")?;
    Ok(Read {
        value: double_of(p.value, q, r),
        at: c.at,
    })
}

// From the second queue's digits on: a double or a deal.
fn two(s: &[u8], at: usize, q: u8) -> Result<Read<Operator>, Lost>
    requires { at ≤ length s.now }
    ensures { ReadsOp s.now at (two_to q) result }
{
    let r = text_names::queue_number(s, at)?;
    let b = text_scan::sign(s, r.at, b"),")?;
    if b.value == b')' {
        return double(s, b.at, q, r.value);
    }
    text_ways::deal(s, b.at, q, r.value)
}

// From behind the first comma on: a second queue, or a gather's variable.
fn more(s: &[u8], at: usize, q: u8) -> Result<Read<Operator>, Lost>
    requires { at ≤ length s.now }
    ensures { ReadsOp s.now at (more_to q) result }
{
    let b = text_ways::queue_or_variable(s, at)?;
    if b.value == b'q' {
        return two(s, b.at, q);
    }
    text_ways::gather(s, b.at, q)
}

// From the first queue's digits on: a line, or more names.
fn queue_to(s: &[u8], at: usize) -> Result<Read<Operator>, Lost>
    requires { at ≤ length s.now }
    ensures { ReadsOp s.now at queue_to result }
{
    let q = text_names::queue_number(s, at)?;
    let b = text_scan::sign(s, q.at, b"),")?;
    if b.value == b')' {
        return line(s, b.at, q.value);
    }
    more(s, b.at, q.value)
}

// An operator, from its first byte on.
pub fn operator(s: &[u8], at: usize) -> Result<Read<Operator>, Lost>
    requires { at ≤ length s.now }
    ensures { ReadsOp s.now at operator result }
{
    let c = text_scan::sign(s, at, b"(")?;
    let b = text_ways::queue_or_variable(s, c.at)?;
    if b.value == b'q' {
        return queue_to(s, b.at);
    }
    latest(s, b.at)
}
