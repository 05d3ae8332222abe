// The records of a sheet from bytes: the head, and one operator.
#![tactic(auto)]

ghost use Rattle.std.specs.Prelude.{◌≡◌, true, ◌+◌, ◌*◌, ◌≤◌, length, drop, get_or};
ghost use Rattle.base_lists.specs.Lists.{build, pad};
ghost use Rattle.sheet_step.specs.Step.{STEP_BYTES, step_of, no_step};
ghost use Rattle.sheet_operator.specs.Memory.{PLACES, memory};
ghost use Rattle.sheet_format.specs.Record.{kind_of, cut, body_good, op_of};
ghost use Rattle.sheet_format.specs.Head.{head_good};
ghost use Rattle.sheet_decode.specs.Takes.{record_answered, record_at, head_answered, head_taken};

use base_refusal::Reason;
use sheet_operator::{Kind, Operator};
use sheet_step::Step;

// A line's body is in, out and one to PLACES steps; a deal's or a gather's a cursor, a queue and two to PLACES ways.
const LINE_LEAST: usize = 2 + sheet_step::STEP_BYTES;

const LINE_MOST: usize = 2 + sheet_step::STEP_BYTES * sheet_operator::PLACES;

const WAYS_LEAST: usize = 2 + 2;

const WAYS_MOST: usize = 2 + sheet_operator::PLACES;

pub const NO_OPERATOR: Operator = Operator {
    kind: Kind::Empty,
    count: 0,
    variable: 0,
    field: 0,
    ins: [0; sheet_operator::PLACES],
    outs: [0; sheet_operator::PLACES],
    steps: [sheet_step::NO_STEP; sheet_operator::PLACES],
};

// An operator's record that was read: where the next record starts, and the operator.
#[derive(Clone, Copy)]
pub struct TakenRecord {
    pub next: usize,
    pub op: Operator,
}

// The numbers of the head that was read.
#[derive(Clone, Copy)]
pub struct Head {
    pub inputs: u8,
    pub queues: u8,
    pub variables: u8,
    pub count: u8,
}

fn kind_of(n: usize) -> Kind
    ensures { result ≡ kind_of n }
{
    match n {
        2 => Kind::Line,
        3 => Kind::Latest,
        4 => Kind::Double,
        5 => Kind::Deal,
        6 => Kind::Gather,
        _ => Kind::Empty,
    }
}

// The record at `at` is cut short, or missing.
pub fn is_cut(s: &[u8], at: usize) -> bool
    requires { at ≤ length s.now }
    ensures { result ≡ cut (drop at s.now) }
{
    if s.len() - at < sheet_format::HEADER {
        return true;
    }
    let body = base_number::short_at(s, at);
    s.len() - at - sheet_format::HEADER < body
}

#[tactic(auto, unfolding(sheet_format::specs::Record::body_good))]
fn line_length(n: usize) -> bool
    ensures { result ≡ body_good Kind.Line n }
{
    LINE_LEAST <= n && n <= LINE_MOST && (n - 2) % sheet_step::STEP_BYTES == 0
}

#[tactic(auto, unfolding(sheet_format::specs::Record::body_good))]
fn ways_length(n: usize) -> bool
    ensures { result ≡ body_good Kind.Deal n }
{
    WAYS_LEAST <= n && n <= WAYS_MOST
}

#[tactic(auto, unfolding(sheet_format::specs::Record::body_good))]
fn body_good(k: Kind, n: usize) -> bool
    ensures { result ≡ body_good k n }
{
    match k {
        Kind::Empty => false,
        Kind::Line => line_length(n),
        Kind::Latest | Kind::Double => n == 3,
        Kind::Deal | Kind::Gather => ways_length(n),
    }
}

fn steps_at(s: &[u8], at: usize, n: usize) -> [Step; sheet_operator::PLACES]
    requires { (n ≤ PLACES) × (at + STEP_BYTES * n ≤ length s.now) }
    ensures { result ≡ pad PLACES no_step (build n (λ k. step_of (drop (at + STEP_BYTES * k) s.now))) }
{
    let mut steps = [sheet_step::NO_STEP; sheet_operator::PLACES];
    for i in 0..n {
        steps[i] = sheet_step::step_at(s, at + sheet_step::STEP_BYTES * i);
    }
    steps
}

fn ways_at(s: &[u8], at: usize, n: usize) -> [u8; sheet_operator::PLACES]
    requires { (n ≤ PLACES) × (at + n ≤ length s.now) }
    ensures { result ≡ pad PLACES 0 (build n (λ k. get_or s.now (at + k) 0)) }
{
    let mut queues = [0; sheet_operator::PLACES];
    for i in 0..n {
        queues[i] = s[at + i];
    }
    queues
}

// The operators whose body starts at `at` and is n bytes long, by kind.
fn line_at(s: &[u8], at: usize, n: usize) -> Operator
    requires { (at + n ≤ length s.now) × (body_good Kind.Line n ≡ true) }
    ensures { result ≡ memory (op_of Kind.Line n (drop at s.now)) }
{
    let count = (n - 2) / sheet_step::STEP_BYTES;
    let steps = steps_at(s, at + 2, count);
    Operator {
        kind: Kind::Line,
        count: count as u8,
        variable: 0,
        field: 0,
        ins: [s[at], 0, 0, 0],
        outs: [s[at + 1], 0, 0, 0],
        steps,
    }
}

fn latest_at(s: &[u8], at: usize) -> Operator
    requires { at + 3 ≤ length s.now }
    ensures { result ≡ memory (op_of Kind.Latest 3 (drop at s.now)) }
{
    Operator {
        kind: Kind::Latest,
        count: 0,
        variable: s[at + 1],
        field: s[at + 2],
        ins: [s[at], 0, 0, 0],
        outs: [0; sheet_operator::PLACES],
        steps: [sheet_step::NO_STEP; sheet_operator::PLACES],
    }
}

fn double_at(s: &[u8], at: usize) -> Operator
    requires { at + 3 ≤ length s.now }
    ensures { result ≡ memory (op_of Kind.Double 3 (drop at s.now)) }
{
    Operator {
        kind: Kind::Double,
        count: 0,
        variable: 0,
        field: 0,
        ins: [s[at], 0, 0, 0],
        outs: [s[at + 1], s[at + 2], 0, 0],
        steps: [sheet_step::NO_STEP; sheet_operator::PLACES],
    }
}

fn deal_at(s: &[u8], at: usize, n: usize) -> Operator
    requires { (at + n ≤ length s.now) × (body_good Kind.Deal n ≡ true) }
    ensures { result ≡ memory (op_of Kind.Deal n (drop at s.now)) }
{
    let outs = ways_at(s, at + 2, n - 2);
    Operator {
        kind: Kind::Deal,
        count: (n - 2) as u8,
        variable: s[at],
        field: 0,
        ins: [s[at + 1], 0, 0, 0],
        outs,
        steps: [sheet_step::NO_STEP; sheet_operator::PLACES],
    }
}

fn gather_at(s: &[u8], at: usize, n: usize) -> Operator
    requires { (at + n ≤ length s.now) × (body_good Kind.Gather n ≡ true) }
    ensures { result ≡ memory (op_of Kind.Gather n (drop at s.now)) }
{
    let ins = ways_at(s, at + 2, n - 2);
    Operator {
        kind: Kind::Gather,
        count: (n - 2) as u8,
        variable: s[at],
        field: 0,
        ins,
        outs: [s[at + 1], 0, 0, 0],
        steps: [sheet_step::NO_STEP; sheet_operator::PLACES],
    }
}

fn operator_at(s: &[u8], at: usize, k: Kind, n: usize) -> Operator
    requires { (at + n ≤ length s.now) × (body_good k n ≡ true) }
    ensures { result ≡ memory (op_of k n (drop at s.now)) }
{
    match k {
        Kind::Empty => NO_OPERATOR,
        Kind::Line => line_at(s, at, n),
        Kind::Latest => latest_at(s, at),
        Kind::Double => double_at(s, at),
        Kind::Deal => deal_at(s, at, n),
        Kind::Gather => gather_at(s, at, n),
    }
}

// The operator's record at `at`, or its refusal.
pub fn take(s: &[u8], at: usize) -> Result<TakenRecord, Reason>
    requires { at ≤ length s.now }
    ensures { record_answered result ≡ record_at s.now at }
{
    if is_cut(s, at) {
        return Err(Reason::BadLength);
    }
    let n = base_number::short_at(s, at);
    let code = base_number::short_at(s, at + 2);
    let k = kind_of(code);
    if sheet_operator::is_empty(k) {
        return Err(Reason::BadKind);
    }
    if !body_good(k, n) {
        return Err(Reason::BadLength);
    }
    let body = at + sheet_format::HEADER;
    let op = operator_at(s, body, k, n);
    Ok(TakenRecord { next: body + n, op })
}

#[tactic(auto, unfolding(sheet_format::specs::Head::head_good))]
pub fn head_good(inputs: u8, queues: u8, variables: u8, count: u8) -> bool
    ensures { result ≡ head_good inputs queues variables count }
{
    1 <= inputs
        && inputs <= base_bounds::INPUTS
        && inputs <= queues
        && queues <= base_bounds::QUEUES
        && variables <= base_bounds::VARIABLES
        && count <= base_bounds::OPERATORS
}

// The head at the front, or its refusal.
pub fn take_head(s: &[u8]) -> Result<Head, Reason>
    ensures { head_answered result ≡ head_taken s.now }
{
    if is_cut(s, 0) {
        return Err(Reason::BadLength);
    }
    if base_number::short_at(s, 2) != 1 {
        return Err(Reason::BadKind);
    }
    if base_number::short_at(s, 0) != sheet_format::HEAD_BODY {
        return Err(Reason::BadLength);
    }
    let inputs = s[4];
    let queues = s[5];
    let variables = s[6];
    let count = s[7];
    if !head_good(inputs, queues, variables, count) {
        return Err(Reason::BadHead);
    }
    Ok(Head {
        inputs,
        queues,
        variables,
        count,
    })
}
