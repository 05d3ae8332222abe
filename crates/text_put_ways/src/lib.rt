// The text of an operator with ways into lent bytes, and the pieces that the other kinds share. Each function answers the place after what it put.
#![tactic(auto)]

ghost use Rattle.std.specs.Prelude.{◌+◌, ◌*◌, ◌≤◌, ◌++◌, length};
ghost use Rattle.base_words.specs.Text.{word, natural};
ghost use Rattle.sheet_operator.specs.Memory.{PLACES, ways, view_as};
ghost use Rattle.sheet_operator.specs.declared.Kind.TheVariants.{Deal, Gather};
ghost use Rattle.text_grammar.specs.Tokens.{printed, ways_tokens, op_tokens};
ghost use Rattle.text_parts.specs.Put.{PutsUpTo, BYTE_TEXT, WAY_TEXT};
ghost use Rattle.text_put_ways.specs.Put.{OPERATOR_TEXT};

use sheet_operator::Operator;

// Two words, each with a byte in decimal.
fn put_two(s: &mut [u8], at: usize, w: &[u8], x: u8, v: &[u8], y: u8) -> usize
    requires { at + (length w.now + BYTE_TEXT + (length v.now + BYTE_TEXT)) ≤ length s.old }
    ensures { PutsUpTo (length w.now + BYTE_TEXT + (length v.now + BYTE_TEXT))
        ((w.now ++ natural x) ++ (v.now ++ natural y)) s.old at s.new result }
{
    let a = text_parts::put_byte(s, at, w, x);
    text_parts::put_byte(s, a, v, y)
}

// The last name of an operator.
pub fn put_last(s: &mut [u8], at: usize, w: &[u8], n: u8) -> usize
    requires { at + (length w.now + BYTE_TEXT + 1) ≤ length s.old }
    ensures { PutsUpTo (length w.now + BYTE_TEXT + 1) ((w.now ++ natural n) ++ word ")")
        s.old at s.new result }
{
    let a = text_parts::put_byte(s, at, w, n);
    base_words::put_word(s, a, b")")
}

// Three words, each with a byte in decimal, and the `)` behind them.
pub fn put_three(
    s: &mut [u8],
    at: usize,
    w: &[u8],
    x: u8,
    v: &[u8],
    y: u8,
    u: &[u8],
    z: u8,
) -> usize
    requires { at + (length w.now + BYTE_TEXT + (length v.now + BYTE_TEXT) + (length u.now + BYTE_TEXT + 1)) ≤ length s.old }
    ensures { PutsUpTo (length w.now + BYTE_TEXT + (length v.now + BYTE_TEXT) + (length u.now + BYTE_TEXT + 1))
        (((w.now ++ natural x) ++ (v.now ++ natural y)) ++ ((u.now ++ natural z) ++ word ")"))
        s.old at s.new result }
{
    let a = put_two(s, at, w, x, v, y);
    put_last(s, a, u, z)
}

// A word, and the ways behind it.
fn put_listed(
    s: &mut [u8],
    at: usize,
    w: &[u8],
    queues: [u8; sheet_operator::PLACES],
    n: usize,
) -> usize
    requires { (n ≤ PLACES) × (at + (length w.now + WAY_TEXT * n) ≤ length s.old) }
    ensures { PutsUpTo (length w.now + WAY_TEXT * n) (w.now ++ printed (ways_tokens (ways n queues)))
        s.old at s.new result }
{
    let a = base_words::put_word(s, at, w);
    text_parts::put_ways(s, a, queues, n)
}

// An operator as a deal, with the space before it; and so for a gather.
pub fn put_deal(s: &mut [u8], at: usize, o: Operator) -> usize
    requires { (o.count ≤ PLACES) × (at + OPERATOR_TEXT ≤ length s.old) }
    ensures { PutsUpTo OPERATOR_TEXT (printed (op_tokens (view_as Deal o))) s.old at s.new result }
{
    let n = o.count as usize;
    let v = o.variable;
    let queues = o.outs;
    let a = put_listed(s, at, b" (", queues, n);
    put_three(s, a, b" $v", v, b") <- Deal(q", o.ins[0], b", $v", v)
}

pub fn put_gather(s: &mut [u8], at: usize, o: Operator) -> usize
    requires { (o.count ≤ PLACES) × (at + OPERATOR_TEXT ≤ length s.old) }
    ensures { PutsUpTo OPERATOR_TEXT (printed (op_tokens (view_as Gather o))) s.old at s.new result }
{
    let n = o.count as usize;
    let v = o.variable;
    let queues = o.ins;
    let a = put_two(s, at, b" (q", o.outs[0], b", $v", v);
    let b = put_listed(s, a, b") <- Gather(", queues, n);
    put_last(s, b, b" $v", v)
}
