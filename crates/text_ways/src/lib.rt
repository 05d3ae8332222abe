// The operators with ways, a deal and a gather, from text, one reader after the other.
#![tactic(auto)]

ghost use Rattle.std.specs.Prelude.{◌≡◌, [], ◌∷◌, ◌≤◌, length, IfOk};
ghost use Rattle.base_words.specs.Text.{word};
ghost use Rattle.sheet_operator.specs.Op.{deal, gather};
ghost use Rattle.sheet_operator.specs.Memory.{memory};
ghost use Rattle.text_scan.specs.Reader.{got, sign};
ghost use Rattle.text_scan.specs.Reads.{same, Reads};
ghost use Rattle.text_grammar.specs.Readers.{ways, deal_to, deal_from, gather_to};
ghost use Rattle.text_ways.specs.Found.{ReadsOp, FilledWays, queues_of};

use sheet_operator::{Kind, Operator, PLACES};
use text_scan::{Lost, Read};

// The ways of a deal or a gather, in their places.
#[derive(Clone, Copy)]
pub struct HeldWays {
    pub count: u8,
    pub queues: [u8; PLACES],
}

// The next way, or the `$` of the variable.
pub fn queue_or_variable(s: &[u8], at: usize) -> Result<Read<u8>, Lost>
    requires { at ≤ length s.now }
    ensures { Reads same s.now at (sign (word "q$")) result }
{
    text_scan::sign(s, at, b"q$")
}

// The ways behind the first two, up to the `$` of the variable. Each is stored in its place.
fn ways(s: &[u8], at: usize, first: u8, second: u8) -> Result<Read<HeldWays>, Lost>
    requires { at ≤ length s.now }
    ensures reads { Reads queues_of s.now at (ways 2 (first ∷ second ∷ []) got) result }
    ensures filled { IfOk result (λ r. FilledWays r.value) }
{
    let mut held = HeldWays {
        count: 2,
        queues: [first, second, 0, 0],
    };
    let mut from = at;
    for k in 2..PLACES {
        let b = queue_or_variable(s, from)?;
        if b.value != b'q' {
            return Ok(Read {
                value: held,
                at: b.at,
            });
        }
        let q = text_names::queue_number(s, b.at)?;
        held.queues[k] = q.value;
        held.count += 1;
        from = text_scan::sign(s, q.at, b",")?.at;
    }
    let end = text_scan::sign(s, from, b"$")?;
    Ok(Read {
        value: held,
        at: end.at,
    })
}

#[tactic(auto, using(base_lists::proofs::Build::build_length))]
fn deal_of(v: u8, p: u8, w: HeldWays) -> Operator
    requires { FilledWays w }
    ensures { result ≡ memory (deal v p (queues_of w)) }
{
    let outs = w.queues;
    Operator {
        kind: Kind::Deal,
        count: w.count,
        variable: v,
        field: 0,
        ins: [p, 0, 0, 0],
        outs,
        steps: [sheet_step::NO_STEP; PLACES],
    }
}

// (.., $v) <- Deal(p, $v), from behind the first `$` on.
fn deal_from(s: &[u8], at: usize, w: HeldWays) -> Result<Read<Operator>, Lost>
    requires { (at ≤ length s.now) × FilledWays w }
    ensures { ReadsOp s.now at (deal_from (queues_of w)) result }
{
    let v = text_names::variable(s, at)?;
    let c = text_scan::sign(s, v.at, b")")?;
    let c = text_names::arrow(s, c.at)?;
    let c = text_scan::sign(s, c.at, b"D")?;
    let c = text_scan::spell(s, c.at, b"eal")?;
    let c = text_scan::sign(s, c.at, b"(")?;
    let p = text_names::queue(s, c.at)?;
    let c = text_scan::sign(s, p.at, b",")?;
    let c = text_scan::sign(s, c.at, b"$")?;
    let c = text_names::variable_is(s, c.at, v.value)?;
    let c = text_scan::sign(s, c.at, b")")?;
    Ok(Read {
        value: deal_of(v.value, p.value, w),
        at: c.at,
    })
}

// (q, r, .., $v) <- Deal(p, $v), from behind the second comma on.
pub fn deal(s: &[u8], at: usize, q: u8, r: u8) -> Result<Read<Operator>, Lost>
    requires { at ≤ length s.now }
    ensures { ReadsOp s.now at (deal_to q r) result }
{
    let w = ways(s, at, q, r)?;
    deal_from(s, w.at, w.value)
}

#[tactic(auto, using(base_lists::proofs::Build::build_length))]
fn gather_of(v: u8, q: u8, w: HeldWays) -> Operator
    requires { FilledWays w }
    ensures { result ≡ memory (gather v q (queues_of w)) }
{
    let ins = w.queues;
    Operator {
        kind: Kind::Gather,
        count: w.count,
        variable: v,
        field: 0,
        ins,
        outs: [q, 0, 0, 0],
        steps: [sheet_step::NO_STEP; PLACES],
    }
}

// (q, $v) <- Gather(a, b, .., $v), from behind the first `$` on.
pub fn gather(s: &[u8], at: usize, q: u8) -> Result<Read<Operator>, Lost>
    requires { at ≤ length s.now }
    ensures { ReadsOp s.now at (gather_to q) result }
{
    let v = text_names::variable(s, at)?;
    let c = text_scan::sign(s, v.at, b")")?;
    let c = text_names::arrow(s, c.at)?;
    let c = text_scan::sign(s, c.at, b"G")?;
    let c = text_scan::spell(s, c.at, b"ather")?;
    let c = text_scan::sign(s, c.at, b"(")?;
    let a = text_names::queue(s, c.at)?;
    let c = text_scan::sign(s, a.at, b",")?;
    let b = text_names::queue(s, c.at)?;
    let c = text_scan::sign(s, b.at, b",")?;
    let w = ways(s, c.at, a.value, b.value)?;
    let c = text_names::variable_is(s, w.at, v.value)?;
    let c = text_scan::sign(s, c.at, b")")?;
    Ok(Read {
        value: gather_of(v.value, q, w.value),
        at: c.at,
    })
}
