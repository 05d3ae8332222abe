// The records of a sheet to bytes: the head, and one operator.
#![tactic(auto)]

ghost use Rattle.std.specs.Prelude.{◌≡◌, ◌∷◌, ◌+◌, ◌*◌, ◌≤◌, length};
ghost use Rattle.std.proofs.lemmas.List.Edits.{sets};
ghost use Rattle.base_lists.specs.Lists.{chain};
ghost use Rattle.sheet_step.specs.Step.{STEP_BYTES, step_bytes};
ghost use Rattle.sheet_operator.specs.Memory.{PLACES, view, ways, steps_in, Ready};
ghost use Rattle.sheet_format.specs.Record.{BODY_MOST, RECORD_MOST, kind_code, op_bytes, body_bytes};
ghost use Rattle.sheet_format.specs.Head.{HEAD_BYTES, head_bytes};

use sheet_operator::{Kind, Operator};
use sheet_step::Step;

fn kind_code(k: Kind) -> usize
    ensures { result ≡ kind_code k }
{
    match k {
        Kind::Empty => 0,
        Kind::Line => 2,
        Kind::Latest => 3,
        Kind::Double => 4,
        Kind::Deal => 5,
        Kind::Gather => 6,
    }
}

// How many bytes an operator's body has.
fn body_length(o: Operator) -> usize
    requires { Ready o }
    ensures { (result ≡ length (body_bytes (view o))) × (result ≤ BODY_MOST) }
{
    let k = o.kind;
    let n = o.count as usize;
    match k {
        Kind::Empty => 3,
        Kind::Line => 2 + sheet_step::STEP_BYTES * n,
        Kind::Latest => 3,
        Kind::Double => 3,
        Kind::Deal => 2 + n,
        Kind::Gather => 2 + n,
    }
}

// How many bytes an operator's record has.
pub fn record_length(o: Operator) -> usize
    requires { Ready o }
    ensures { (result ≡ length (op_bytes (view o))) × (result ≤ RECORD_MOST) }
{
    sheet_format::HEADER + body_length(o)
}

fn put_steps(s: &mut [u8], at: usize, steps: [Step; sheet_operator::PLACES], n: usize)
    requires { (n ≤ PLACES) × (at + STEP_BYTES * n ≤ length s.old) }
    ensures { s.new ≡ sets s.old at (chain step_bytes (steps_in n steps)) }
{
    for i in 0..n {
        let t = steps[i];
        sheet_step::put_step(s, at + sheet_step::STEP_BYTES * i, t);
    }
}

fn put_ways(s: &mut [u8], at: usize, queues: [u8; sheet_operator::PLACES], n: usize)
    requires { (n ≤ PLACES) × (at + n ≤ length s.old) }
    ensures { s.new ≡ sets s.old at (ways n queues) }
{
    for i in 0..n {
        s[at + i] = queues[i];
    }
}

fn put_line(s: &mut [u8], at: usize, o: Operator)
    requires { (o.kind ≡ Kind.Line) × (o.count ≤ PLACES) × (at + length (body_bytes (view o)) ≤ length s.old) }
    ensures { s.new ≡ sets s.old at (body_bytes (view o)) }
{
    let n = o.count as usize;
    let steps = o.steps;
    s[at] = o.ins[0];
    s[at + 1] = o.outs[0];
    put_steps(s, at + 2, steps, n);
}

fn put_latest(s: &mut [u8], at: usize, o: Operator)
    requires { (o.kind ≡ Kind.Latest) × (at + 3 ≤ length s.old) }
    ensures { s.new ≡ sets s.old at (body_bytes (view o)) }
{
    s[at] = o.ins[0];
    s[at + 1] = o.variable;
    s[at + 2] = o.field;
}

fn put_double(s: &mut [u8], at: usize, o: Operator)
    requires { (o.kind ≡ Kind.Double) × (at + 3 ≤ length s.old) }
    ensures { s.new ≡ sets s.old at (body_bytes (view o)) }
{
    s[at] = o.ins[0];
    s[at + 1] = o.outs[0];
    s[at + 2] = o.outs[1];
}

// The body of a deal or a gather: the cursor, the queue on its one side, and the ways on the other.
fn put_branches(
    s: &mut [u8],
    at: usize,
    cursor: u8,
    one: u8,
    queues: [u8; sheet_operator::PLACES],
    n: usize,
)
    requires { (n ≤ PLACES) × (at + (2 + n) ≤ length s.old) }
    ensures { s.new ≡ sets s.old at (cursor ∷ one ∷ ways n queues) }
{
    s[at] = cursor;
    s[at + 1] = one;
    put_ways(s, at + 2, queues, n);
}

fn put_body(s: &mut [u8], at: usize, o: Operator)
    requires { Ready o × (at + length (body_bytes (view o)) ≤ length s.old) }
    ensures { s.new ≡ sets s.old at (body_bytes (view o)) }
{
    let k = o.kind;
    let n = o.count as usize;
    let ins = o.ins;
    let outs = o.outs;
    match k {
        Kind::Empty => {}
        Kind::Line => put_line(s, at, o),
        Kind::Latest => put_latest(s, at, o),
        Kind::Double => put_double(s, at, o),
        Kind::Deal => put_branches(s, at, o.variable, ins[0], outs, n),
        Kind::Gather => put_branches(s, at, o.variable, outs[0], ins, n),
    }
}

// Writes an operator's record at `at`.
pub fn put(s: &mut [u8], at: usize, o: Operator)
    requires { Ready o × (at + length (op_bytes (view o)) ≤ length s.old) }
    ensures { s.new ≡ sets s.old at (op_bytes (view o)) }
{
    let n = body_length(o);
    let k = o.kind;
    let code = kind_code(k);
    base_number::put_short(s, at, n);
    base_number::put_short(s, at + 2, code);
    put_body(s, at + sheet_format::HEADER, o);
}

// Writes the head at the front.
pub fn put_head(s: &mut [u8], inputs: u8, queues: u8, variables: u8, count: u8)
    requires { HEAD_BYTES ≤ length s.old }
    ensures { s.new ≡ sets s.old 0 (head_bytes inputs queues variables count) }
{
    base_number::put_short(s, 0, sheet_format::HEAD_BODY);
    base_number::put_short(s, 2, 1);
    s[4] = inputs;
    s[5] = queues;
    s[6] = variables;
    s[7] = count;
}
