// A line's steps from text, one reader after the other.
#![tactic(auto)]

ghost use Rattle.std.specs.Prelude.{[], ◌≤◌, length, IfOk};
ghost use Rattle.text_scan.specs.Reads.{same, Reads};
ghost use Rattle.text_grammar.specs.Readers.{on_variable, keep, add, copy, count, stamp, copy_or_count, step, steps};
ghost use Rattle.text_steps.specs.Steps.{Filled, steps_of};

use sheet_operator::PLACES;
use sheet_step::{Func, Step};
use text_scan::{Lost, Read};

// The steps read so far, in their places.
#[derive(Clone, Copy)]
pub struct HeldSteps {
    pub count: u8,
    pub steps: [Step; PLACES],
}

// The arguments of Count and Stamp.
fn on_variable(s: &[u8], at: usize, func: Func) -> Result<Read<Step>, Lost>
    requires { at ≤ length s.now }
    ensures { Reads same s.now at (on_variable func) result }
{
    let c = text_scan::sign(s, at, b"[")?;
    let c = text_scan::sign(s, c.at, b"$")?;
    let v = text_names::variable(s, c.at)?;
    let c = text_scan::sign(s, v.at, b",")?;
    let p = text_names::byte(s, c.at)?;
    let c = text_scan::sign(s, p.at, b"]")?;
    let step = Step {
        func,
        variable: v.value,
        p: p.value,
        r: 0,
        low: 0,
        high: 0,
    };
    Ok(Read {
        value: step,
        at: c.at,
    })
}

fn count(s: &[u8], at: usize) -> Result<Read<Step>, Lost>
    requires { at ≤ length s.now }
    ensures { Reads same s.now at count result }
{
    let c = text_scan::spell(s, at, b"nt")?;
    on_variable(s, c.at, Func::Count)
}

fn stamp(s: &[u8], at: usize) -> Result<Read<Step>, Lost>
    requires { at ≤ length s.now }
    ensures { Reads same s.now at stamp result }
{
    let c = text_scan::spell(s, at, b"tamp")?;
    on_variable(s, c.at, Func::Stamp)
}

fn copy(s: &[u8], at: usize) -> Result<Read<Step>, Lost>
    requires { at ≤ length s.now }
    ensures { Reads same s.now at copy result }
{
    let c = text_scan::spell(s, at, b"y")?;
    let c = text_scan::sign(s, c.at, b"[")?;
    let p = text_names::byte(s, c.at)?;
    let c = text_scan::sign(s, p.at, b",")?;
    let r = text_names::byte(s, c.at)?;
    let c = text_scan::sign(s, r.at, b"]")?;
    let step = Step {
        func: Func::Copy,
        variable: sheet_step::NO_VARIABLE,
        p: p.value,
        r: r.value,
        low: 0,
        high: 0,
    };
    Ok(Read {
        value: step,
        at: c.at,
    })
}

fn copy_or_count(s: &[u8], at: usize) -> Result<Read<Step>, Lost>
    requires { at ≤ length s.now }
    ensures { Reads same s.now at copy_or_count result }
{
    let c = text_scan::spell(s, at, b"o")?;
    let b = text_scan::here(s, c.at, b"pu")?;
    if b.value == b'p' {
        return copy(s, b.at);
    }
    count(s, b.at)
}

fn add(s: &[u8], at: usize) -> Result<Read<Step>, Lost>
    requires { at ≤ length s.now }
    ensures { Reads same s.now at add result }
{
    let c = text_scan::spell(s, at, b"dd")?;
    let c = text_scan::sign(s, c.at, b"[")?;
    let p = text_names::byte(s, c.at)?;
    let c = text_scan::sign(s, p.at, b",")?;
    let n = text_names::number(s, c.at)?;
    let c = text_scan::sign(s, n.at, b"]")?;
    let step = Step {
        func: Func::Add,
        variable: sheet_step::NO_VARIABLE,
        p: p.value,
        r: 0,
        low: base_number::signed(n.value),
        high: 0,
    };
    Ok(Read {
        value: step,
        at: c.at,
    })
}

fn keep(s: &[u8], at: usize) -> Result<Read<Step>, Lost>
    requires { at ≤ length s.now }
    ensures { Reads same s.now at keep result }
{
    let c = text_scan::spell(s, at, b"eep")?;
    let c = text_scan::sign(s, c.at, b"[")?;
    let p = text_names::byte(s, c.at)?;
    let c = text_scan::sign(s, p.at, b",")?;
    let n = text_names::number(s, c.at)?;
    let c = text_scan::sign(s, n.at, b",")?;
    let m = text_names::number(s, c.at)?;
    let c = text_scan::sign(s, m.at, b"]")?;
    let step = Step {
        func: Func::Keep,
        variable: sheet_step::NO_VARIABLE,
        p: p.value,
        r: 0,
        low: base_number::signed(n.value),
        high: base_number::signed(m.value),
    };
    Ok(Read {
        value: step,
        at: c.at,
    })
}

// A step, from its function's name on.
fn step(s: &[u8], at: usize) -> Result<Read<Step>, Lost>
    requires { at ≤ length s.now }
    ensures { Reads same s.now at step result }
{
    let b = text_scan::sign(s, at, b"KACS")?;
    match b.value {
        b'K' => keep(s, b.at),
        b'A' => add(s, b.at),
        b'C' => copy_or_count(s, b.at),
        _ => stamp(s, b.at),
    }
}

// A line's steps and the `(` behind them: three with a choice of what follows, and then the fourth. Each is stored in its place.
pub fn steps(s: &[u8], at: usize) -> Result<Read<HeldSteps>, Lost>
    requires { at ≤ length s.now }
    ensures reads { Reads steps_of s.now at (steps 3 []) result }
    ensures filled { IfOk result (λ r. Filled r.value) }
{
    let mut held = HeldSteps {
        count: 0,
        steps: [sheet_step::NO_STEP; PLACES],
    };
    let mut from = at;
    for k in 0..PLACES - 1 {
        let t = step(s, from)?;
        held.steps[k] = t.value;
        held.count += 1;
        let next = text_scan::sign(s, t.at, b"|(")?;
        if next.value != b'|' {
            return Ok(Read {
                value: held,
                at: next.at,
            });
        }
        from = next.at;
    }
    let t = step(s, from)?;
    held.steps[PLACES - 1] = t.value;
    held.count += 1;
    let end = text_scan::sign(s, t.at, b"(")?;
    Ok(Read {
        value: held,
        at: end.at,
    })
}
