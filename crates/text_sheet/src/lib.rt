// The sheet that the kept parts of a text stand for, with its number of queues.
#![tactic(auto)]

ghost use Rattle.std.specs.Prelude.{◌≡◌, ◌<◌};
ghost use Rattle.base_bounds.specs.Bounds.{INPUTS, OPERATORS};
ghost use Rattle.sheet_operator.specs.Memory.{PLACES, ways};
ghost use Rattle.text_sheet.specs.Built.{larger, smaller, highest_from, highest_place, highest_in, built};

use base_bounds::INPUTS;
use sheet::Sheet;
use sheet_operator::Operator;
use text_lists::KeptNames;
use text_tree::HeldOperators;

const MOST: usize = INPUTS as usize;

fn larger(m: u8, q: u8) -> u8
    ensures { result ≡ larger m q }
{
    if m < q { q } else { m }
}

// The highest number in four places, and of m.
fn highest(m: u8, l: [u8; sheet_operator::PLACES]) -> u8
    ensures { result ≡ highest_from m (ways PLACES l) }
{
    let mut h = m;
    for i in 0..sheet_operator::PLACES {
        h = larger(h, l[i]);
    }
    h
}

// The highest of the first names, as many as a sheet may have inputs.
fn highest_input(n: KeptNames) -> u8
    ensures { result ≡ highest_from 0 (ways INPUTS n.queues) }
{
    let l = n.queues;
    let mut h = 0;
    for i in 0..MOST {
        h = larger(h, l[i]);
    }
    h
}

// The highest number in an operator's places, and of m.
fn highest_place(m: u8, o: Operator) -> u8
    ensures { result ≡ highest_place m o }
{
    let ins = o.ins;
    let outs = o.outs;
    let h = highest(m, ins);
    highest(h, outs)
}

// How many operators stand in places.
fn placed(n: u8) -> usize
    ensures { result ≡ smaller n OPERATORS }
{
    if base_bounds::OPERATORS < n {
        text_tree::HELD
    } else {
        n as usize
    }
}

fn highest_in(n: KeptNames, h: HeldOperators) -> u8
    ensures { result ≡ highest_in n h }
{
    let mut m = highest_input(n);
    let end = placed(h.count);
    for i in 0..end {
        let o = h.operators[i];
        m = highest_place(m, o);
    }
    m
}

// The sheet; counts past their places are out of its range, as the true ones are.
pub fn build(n: KeptNames, variables: u8, h: HeldOperators) -> Sheet
    requires { highest_in n h < 255 }
    ensures { result ≡ built n variables h }
{
    let queues = highest_in(n, h) + 1;
    let operators = h.operators;
    Sheet {
        inputs: n.count,
        queues,
        variables,
        count: h.count,
        operators,
    }
}
