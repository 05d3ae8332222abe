// The parts of an operator's text into lent bytes: names, numbers, steps, ways. Each function answers the place after what it put.
#![tactic(auto)]

ghost use Rattle.std.specs.Prelude.{◌+◌, ◌*◌, ◌≤◌, ◌++◌, length};
ghost use Rattle.base_words.specs.Text.{word, natural, integer};
ghost use Rattle.sheet_operator.specs.Memory.{PLACES, ways, steps_in};
ghost use Rattle.text_grammar.specs.Tokens.{printed, step_tokens, line_tokens, ways_tokens};
ghost use Rattle.text_parts.specs.Put.{PutsUpTo, BYTE_TEXT, NUMBER_TEXT, PAIR_TEXT, STEP_TEXT, BAR_TEXT, WAY_TEXT, bar_tokens, way_tokens_at};

use sheet_step::{Func, Step};

// A word and a byte in decimal.
pub fn put_byte(s: &mut [u8], at: usize, w: &[u8], n: u8) -> usize
    requires { at + (length w.now + BYTE_TEXT) ≤ length s.old }
    ensures { PutsUpTo (length w.now + BYTE_TEXT) (w.now ++ natural n) s.old at s.new result }
{
    let a = base_words::put_word(s, at, w);
    base_words::put_natural(s, a, n as usize)
}

// A word and a number.
fn put_number(s: &mut [u8], at: usize, w: &[u8], z: i32) -> usize
    requires { at + (length w.now + NUMBER_TEXT) ≤ length s.old }
    ensures { PutsUpTo (length w.now + NUMBER_TEXT) (w.now ++ integer z) s.old at s.new result }
{
    let a = base_words::put_word(s, at, w);
    base_words::put_integer(s, a, z)
}

// A word that opens a bracket, and two bytes in it.
fn put_pair(s: &mut [u8], at: usize, w: &[u8], x: u8, y: u8) -> usize
    requires { at + (length w.now + PAIR_TEXT) ≤ length s.old }
    ensures { PutsUpTo (length w.now + PAIR_TEXT) ((w.now ++ natural x) ++ (word "," ++ (natural y ++ word "]")))
        s.old at s.new result }
{
    let a = put_byte(s, at, w, x);
    let b = put_byte(s, a, b",", y);
    base_words::put_word(s, b, b"]")
}

fn put_keep(s: &mut [u8], at: usize, p: u8, low: i32, high: i32) -> usize
    requires { at + STEP_TEXT ≤ length s.old }
    ensures { PutsUpTo STEP_TEXT (word " Keep[" ++ (natural p ++ (word "," ++ (integer low ++ (word "," ++ (integer high ++ word "]"))))))
        s.old at s.new result }
{
    let a = put_byte(s, at, b" Keep[", p);
    let b = put_number(s, a, b",", low);
    let d = put_number(s, b, b",", high);
    base_words::put_word(s, d, b"]")
}

fn put_add(s: &mut [u8], at: usize, p: u8, low: i32) -> usize
    requires { at + STEP_TEXT ≤ length s.old }
    ensures { PutsUpTo STEP_TEXT (word " Add[" ++ (natural p ++ (word "," ++ (integer low ++ word "]")))) s.old at s.new result }
{
    let a = put_byte(s, at, b" Add[", p);
    let b = put_number(s, a, b",", low);
    base_words::put_word(s, b, b"]")
}

// A step, with the space before it.
fn put_step(s: &mut [u8], at: usize, t: Step) -> usize
    requires { at + STEP_TEXT ≤ length s.old }
    ensures { PutsUpTo STEP_TEXT (printed (step_tokens t.func t)) s.old at s.new result }
{
    let f = t.func;
    match f {
        Func::None => at,
        Func::Keep => put_keep(s, at, t.p, t.low, t.high),
        Func::Add => put_add(s, at, t.p, t.low),
        Func::Copy => put_pair(s, at, b" Copy[", t.p, t.r),
        Func::Count => put_pair(s, at, b" Count[$v", t.variable, t.p),
        Func::Stamp => put_pair(s, at, b" Stamp[$v", t.variable, t.p),
    }
}

// A step of a line: the mark stands before all but the first.
fn put_next(s: &mut [u8], at: usize, first: bool, t: Step) -> usize
    requires { at + BAR_TEXT ≤ length s.old }
    ensures { PutsUpTo BAR_TEXT (printed (bar_tokens first t)) s.old at s.new result }
{
    if first {
        return put_step(s, at, t);
    }
    let a = base_words::put_word(s, at, b" |");
    put_step(s, a, t)
}

pub fn put_steps(s: &mut [u8], at: usize, steps: [Step; sheet_operator::PLACES], n: usize) -> usize
    requires { (n ≤ PLACES) × (at + BAR_TEXT * n ≤ length s.old) }
    ensures { PutsUpTo (BAR_TEXT * n) (printed (line_tokens (steps_in n steps))) s.old at s.new result }
{
    let mut end = at;
    for i in 0..n {
        let t = steps[i];
        end = put_next(s, end, i == 0, t);
    }
    end
}

// A queue of a deal or a gather, with the comma after it.
fn put_way(s: &mut [u8], at: usize, first: bool, q: u8) -> usize
    requires { at + WAY_TEXT ≤ length s.old }
    ensures { PutsUpTo WAY_TEXT (printed (way_tokens_at first q)) s.old at s.new result }
{
    if first {
        let a = put_byte(s, at, b"q", q);
        return base_words::put_word(s, a, b",");
    }
    let a = put_byte(s, at, b" q", q);
    base_words::put_word(s, a, b",")
}

pub fn put_ways(s: &mut [u8], at: usize, queues: [u8; sheet_operator::PLACES], n: usize) -> usize
    requires { (n ≤ PLACES) × (at + WAY_TEXT * n ≤ length s.old) }
    ensures { PutsUpTo (WAY_TEXT * n) (printed (ways_tokens (ways n queues))) s.old at s.new result }
{
    let mut end = at;
    for i in 0..n {
        let q = queues[i];
        end = put_way(s, end, i == 0, q);
    }
    end
}
