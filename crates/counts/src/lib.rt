// The calm test and the worst counts, on any sheet in memory.
#![tactic(auto)]

ghost use Rattle.std.specs.Prelude.{◌≡◌, cond, map, ℕ, ◌≤◌, ◌^◌, ltb, leb, eqb, get_or, set};
ghost use Rattle.base_lists.specs.Lists.{sum};
ghost use Rattle.sheet_operator.specs.Memory.{PLACES, view, ways, Ready};
ghost use Rattle.base_bounds.specs.Bounds.{QUEUES, ROOM};
ghost use Rattle.sheet.specs.Answer.{accepted};
ghost use Rattle.sheet.specs.Sheet.{view_sheet};
ghost use Rattle.sheet.specs.Check.{check_of};
ghost use Rattle.counts.specs.Calm.{is_calm};
ghost use Rattle.counts.specs.Worst.{feed_good, deal_worst, dealt, worst_op, worst_from};
ghost use Rattle.counts.specs.Answers.{Calms, Worsts};

use base_refusal::{Reason, Refusal};
use sheet::Sheet;
use sheet_operator::{Kind, Operator};

pub const QUEUES: usize = base_bounds::QUEUES as usize;

pub const ROOM: u64 = base_bounds::ROOM as u64;

// No operator of an accepted sheet names a variable that one before it names.
fn names_apart(t: Sheet) -> bool
    requires { check_of t ≡ accepted }
    ensures { result ≡ is_calm (view_sheet t) }
{
    let n = t.count as usize;
    let mut named = [false; sheet_sets::FLAGS];
    for i in 0..n {
        let o = t.operators[i];
        if !sheet_sets::names_apart(named, o) {
            return false;
        }
        let next = sheet_sets::names_flagged(named, o);
        named = next;
    }
    true
}

// Whether a sheet is calm, or its own refusal.
pub fn calm(t: Sheet) -> Result<bool, Refusal>
    ensures { Calms t result }
{
    sheet::check(t)?;
    Ok(names_apart(t))
}

fn count_at(w: [u64; QUEUES], q: u8) -> u64
    ensures { result ≡ get_or w q 0 }
{
    match w.get(q as usize) {
        Some(n) => *n,
        None => 0,
    }
}

fn counted(w: [u64; QUEUES], q: u8, n: u64) -> [u64; QUEUES]
    ensures { result ≡ set w q n }
{
    let mut r = w;
    let i = q as usize;
    if i < QUEUES {
        r[i] = n;
        return r;
    }
    r
}

fn deal_worst(n: u64, k: usize, j: usize) -> u64
    requires { (n ≤ 2 ^ 60) × (k ≤ PLACES) }
    ensures { result ≡ deal_worst n k j }
{
    if k == 0 {
        return 0;
    }
    let m = k as u64;
    (n + (m - 1)) / m
}

fn deal_counts(
    w: [u64; QUEUES],
    n: u64,
    qs: [u8; sheet_operator::PLACES],
    k: usize,
) -> [u64; QUEUES]
    requires { (n ≤ 2 ^ 60) × (k ≤ PLACES) }
    ensures { result ≡ dealt w n k 0 (ways k qs) }
{
    let mut r = w;
    for j in 0..k {
        let q = qs[j];
        let m = deal_worst(n, k, j);
        let next = counted(r, q, m);
        r = next;
    }
    r
}

fn gather_count(w: [u64; QUEUES], ps: [u8; sheet_operator::PLACES], k: usize) -> u64
    requires { (k ≤ PLACES) × ((q : ℕ) → get_or w q 0 ≤ 2 ^ 60) }
    ensures { result ≡ sum (map (λ p. get_or w p 0) (ways k ps)) }
{
    let mut n: u64 = 0;
    for j in 0..k {
        let p = ps[j];
        n += count_at(w, p);
    }
    n
}

fn line_counts(w: [u64; QUEUES], o: Operator) -> [u64; QUEUES]
    ensures { result ≡ set w (get_or o.outs 0 0) (get_or w (get_or o.ins 0 0) 0) }
{
    let n = count_at(w, o.ins[0]);
    counted(w, o.outs[0], n)
}

fn double_counts(w: [u64; QUEUES], o: Operator) -> [u64; QUEUES]
    ensures { result ≡ set (set w (get_or o.outs 0 0) (get_or w (get_or o.ins 0 0) 0)) (get_or o.outs 1 0) (get_or w (get_or o.ins 0 0) 0) }
{
    let n = count_at(w, o.ins[0]);
    let first = counted(w, o.outs[0], n);
    counted(first, o.outs[1], n)
}

// The counts after one operator.
fn operator_counts(w: [u64; QUEUES], o: Operator) -> [u64; QUEUES]
    requires { Ready o × ((q : ℕ) → get_or w q 0 ≤ 2 ^ 60) }
    ensures { result ≡ worst_op w (view o) }
{
    let n = o.count as usize;
    match o.kind {
        Kind::Empty | Kind::Latest => w,
        Kind::Line => line_counts(w, o),
        Kind::Double => double_counts(w, o),
        Kind::Deal => deal_counts(w, count_at(w, o.ins[0]), o.outs, n),
        Kind::Gather => counted(w, o.outs[0], gather_count(w, o.ins, n)),
    }
}

// A queue's fed number: at most ROOM on an input, else 0.
fn fed_good(inputs: usize, q: usize, n: u64) -> bool
    ensures { result ≡ cond (ltb q inputs) (leb n ROOM) (eqb n 0) }
{
    if q < inputs { n <= ROOM } else { n == 0 }
}

fn feed_good(inputs: u8, fed: [u64; QUEUES]) -> bool
    ensures { result ≡ feed_good inputs fed }
{
    for q in 0..QUEUES {
        if !fed_good(inputs as usize, q, fed[q]) {
            return false;
        }
    }
    true
}

fn sheet_counts(t: Sheet, fed: [u64; QUEUES]) -> [u64; QUEUES]
    requires { (check_of t ≡ accepted) × ((q : ℕ) → get_or fed q 0 ≤ ROOM) }
    ensures { result ≡ worst_from fed (view_sheet t).ops }
{
    let n = t.count as usize;
    let mut w = fed;
    for i in 0..n {
        let o = t.operators[i];
        let next = operator_counts(w, o);
        w = next;
    }
    w
}

// The worst counts of a sheet for the numbers fed: its own refusal, then 8.
pub fn worst(t: Sheet, fed: [u64; QUEUES]) -> Result<[u64; QUEUES], Refusal>
    ensures { Worsts t fed result }
{
    sheet::check(t)?;
    if !feed_good(t.inputs, fed) {
        return Err(Reason::BadState.into());
    }
    Ok(sheet_counts(t, fed))
}
