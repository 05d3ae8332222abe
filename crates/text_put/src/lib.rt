// An operator's text into lent bytes. Each function answers the place after what it put.
#![tactic(auto)]

ghost use Rattle.std.specs.Prelude.{◌+◌, ◌≤◌, length};
ghost use Rattle.sheet_operator.specs.Memory.{PLACES, view, view_as, Ready};
ghost use Rattle.text_grammar.specs.Tokens.{printed, op_tokens};
ghost use Rattle.text_parts.specs.Put.{PutsUpTo};
ghost use Rattle.text_put_ways.specs.Put.{OPERATOR_TEXT};

use sheet_operator::{Kind, Operator};

// An operator as a line, with the space before it; and so for the other kinds.
fn put_line(s: &mut [u8], at: usize, o: Operator) -> usize
    requires { (o.count ≤ PLACES) × (at + OPERATOR_TEXT ≤ length s.old) }
    ensures { PutsUpTo OPERATOR_TEXT (printed (op_tokens (view_as Kind.Line o))) s.old at s.new result }
{
    let n = o.count as usize;
    let steps = o.steps;
    let a = text_parts::put_byte(s, at, b" (q", o.outs[0]);
    let b = base_words::put_word(s, a, b") <-");
    let d = text_parts::put_steps(s, b, steps, n);
    text_put_ways::put_last(s, d, b"(q", o.ins[0])
}

fn put_latest(s: &mut [u8], at: usize, o: Operator) -> usize
    requires { at + OPERATOR_TEXT ≤ length s.old }
    ensures { PutsUpTo OPERATOR_TEXT (printed (op_tokens (view_as Kind.Latest o))) s.old at s.new result }
{
    text_put_ways::put_three(
        s,
        at,
        b" ($v",
        o.variable,
        b") <- Latest[",
        o.field,
        b"](q",
        o.ins[0],
    )
}

fn put_double(s: &mut [u8], at: usize, o: Operator) -> usize
    requires { at + OPERATOR_TEXT ≤ length s.old }
    ensures { PutsUpTo OPERATOR_TEXT (printed (op_tokens (view_as Kind.Double o))) s.old at s.new result }
{
    text_put_ways::put_three(
        s,
        at,
        b" (q",
        o.outs[0],
        b", q",
        o.outs[1],
        b") <- Double(q",
        o.ins[0],
    )
}

// An operator, with the space before it.
pub fn put_operator(s: &mut [u8], at: usize, o: Operator) -> usize
    requires { Ready o × (at + OPERATOR_TEXT ≤ length s.old) }
    ensures { PutsUpTo OPERATOR_TEXT (printed (op_tokens (view o))) s.old at s.new result }
{
    let k = o.kind;
    match k {
        Kind::Empty => at,
        Kind::Line => put_line(s, at, o),
        Kind::Latest => put_latest(s, at, o),
        Kind::Double => put_double(s, at, o),
        Kind::Deal => text_put_ways::put_deal(s, at, o),
        Kind::Gather => text_put_ways::put_gather(s, at, o),
    }
}
