// A text's head and its operators, up to the text's end: what the program keeps of them.
#![tactic(auto)]

ghost use Rattle.std.specs.Prelude.{◌≡◌, cond, ◌≤◌, length, leb};
ghost use Rattle.base_bounds.specs.Bounds.{OPERATORS};
ghost use Rattle.text_tree.specs.Tree.{none, next_place, next_count, ReadsOperators, ReadsItem, Heads};

use base_bounds::OPERATORS;
use sheet_operator::Operator;
use text_lists::NameList;
use text_scan::{Lost, Read};

pub const HELD: usize = OPERATORS as usize;

// The first operators, in their places, and how many there are; one past the places stands for any more.
#[derive(Clone, Copy)]
pub struct HeldOperators {
    pub count: u8,
    pub operators: [Operator; HELD],
}

// The lists of the head, and the variables.
#[derive(Clone, Copy)]
pub struct TextHead {
    pub outputs: NameList,
    pub inputs: NameList,
    pub variables: u8,
}

fn no_operators() -> HeldOperators
    ensures { result ≡ none }
{
    let operators = [sheet_decode::NO_OPERATOR; HELD];
    HeldOperators {
        count: 0,
        operators,
    }
}

// The place of the operator after k; the last one where all are taken.
fn next_place(k: u8) -> usize
    ensures { result ≡ next_place k }
{
    if OPERATORS <= k {
        return HELD - 1;
    }
    k as usize
}

// What stands at that place then: the new operator while there is a place for it, else the old one.
fn chosen(k: u8, old: Operator, new: Operator) -> Operator
    ensures { result ≡ cond (leb OPERATORS k) old new }
{
    if OPERATORS <= k {
        return old;
    }
    new
}

// How many there are with one more; one past the places stands for any more.
fn next_count(k: u8) -> u8
    ensures { result ≡ next_count k }
{
    if OPERATORS <= k {
        return OPERATORS + 1;
    }
    k + 1
}

// One operator and the semicolon after it.
fn item(s: &[u8], at: usize) -> Result<Read<Operator>, Lost>
    requires { at ≤ length s.now }
    ensures { ReadsItem s.now at result }
{
    let op = text_operators::operator(s, at)?;
    let mark = text_scan::sign(s, op.at, b";")?;
    Ok(Read {
        value: op.value,
        at: mark.at,
    })
}

// The operators up to the end of the text. Each is stored in its place, so that the others are not copied.
pub fn operators(s: &[u8], at: usize) -> Result<Read<HeldOperators>, Lost>
    requires { at ≤ length s.now }
    ensures { ReadsOperators s.now at result }
{
    let mut held = no_operators();
    let mut from = at;
    loop {
        let end = text_scan::skip(s, from);
        if end == s.len() {
            return Ok(Read {
                value: held,
                at: end,
            });
        }
        let f = item(s, from)?;
        let p = next_place(held.count);
        held.operators[p] = chosen(held.count, held.operators[p], f.value);
        held.count = next_count(held.count);
        from = f.at;
    }
}

// `output`, `input` and `vars`, each with what belongs to it.
pub fn head(s: &[u8]) -> Result<Read<TextHead>, Lost>
    ensures { Heads s.now result }
{
    let c = text_scan::sign(s, 0, b"o")?;
    let c = text_scan::spell(s, c.at, b"utput")?;
    let outputs = text_lists::names(s, c.at)?;
    let c = text_scan::sign(s, outputs.at, b"i")?;
    let c = text_scan::spell(s, c.at, b"nput")?;
    let inputs = text_lists::names(s, c.at)?;
    let c = text_scan::sign(s, inputs.at, b"v")?;
    let c = text_scan::spell(s, c.at, b"ars")?;
    let c = text_scan::here(s, c.at, b" \t\n\r")?;
    let v = text_names::byte(s, c.at)?;
    let c = text_scan::sign(s, v.at, b";")?;
    Ok(Read {
        value: TextHead {
            outputs: outputs.value,
            inputs: inputs.value,
            variables: v.value,
        },
        at: c.at,
    })
}
