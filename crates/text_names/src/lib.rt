// Names and numbers from text.
#![tactic(auto)]

ghost use Rattle.std.specs.Prelude.{◌≤◌, length, IfOk};
ghost use Rattle.base_words.specs.Text.{natural};
ghost use Rattle.text_scan.specs.Reader.{spell};
ghost use Rattle.text_scan.specs.Reads.{same, Reads};
ghost use Rattle.text_grammar.specs.Readers.{decimal, byte, queue, variable, variable_is_lem, arrow, negative, number};

use text_scan::{Lost, Read};

// The highest number of a queue.
pub const LAST_QUEUE: u32 = base_bounds::QUEUES as u32 - 1;

const LAST_VARIABLE: u32 = base_bounds::VARIABLES as u32 - 1;

// A decimal up to `top`, its first digit at once.
pub fn decimal(s: &[u8], at: usize, top: u32) -> Result<Read<u32>, Lost>
    requires { (at ≤ length s.now) × (9 ≤ top) }
    ensures reads { Reads same s.now at (decimal top) result }
    ensures small { IfOk result (λ r. r.value ≤ top) }
{
    let first = text_scan::here(s, at, b"0123456789")?;
    Ok(text_scan::digits(s, first.at, first.value as u32, top))
}

pub fn byte(s: &[u8], at: usize) -> Result<Read<u8>, Lost>
    requires { at ≤ length s.now }
    ensures { Reads same s.now at byte result }
{
    let first = text_scan::sign(s, at, b"0123456789")?;
    let n = text_scan::digits(s, first.at, first.value as u32, 255);
    Ok(Read {
        value: n.value as u8,
        at: n.at,
    })
}

pub fn queue(s: &[u8], at: usize) -> Result<Read<u8>, Lost>
    requires { at ≤ length s.now }
    ensures reads { Reads same s.now at queue result }
    ensures small { IfOk result (λ r. r.value ≤ 23) }
{
    let mark = text_scan::sign(s, at, b"q")?;
    queue_number(s, mark.at)
}

// A queue's number, once its `q` is read.
pub fn queue_number(s: &[u8], at: usize) -> Result<Read<u8>, Lost>
    requires { at ≤ length s.now }
    ensures reads { Reads same s.now at (decimal 23) result }
    ensures small { IfOk result (λ r. r.value ≤ 23) }
{
    let n = decimal(s, at, LAST_QUEUE)?;
    Ok(Read {
        value: n.value as u8,
        at: n.at,
    })
}

// A variable, once its `$` is read.
pub fn variable(s: &[u8], at: usize) -> Result<Read<u8>, Lost>
    requires { at ≤ length s.now }
    ensures reads { Reads same s.now at variable result }
    ensures small { IfOk result (λ r. r.value ≤ 15) }
{
    let mark = text_scan::here(s, at, b"v")?;
    let n = decimal(s, mark.at, LAST_VARIABLE)?;
    Ok(Read {
        value: n.value as u8,
        at: n.at,
    })
}

// The digits of a number below 20.
fn spell_small(s: &[u8], at: usize, n: u8) -> Result<Read<u8>, Lost>
    requires { (at ≤ length s.now) × (n ≤ 19) }
    ensures { Reads same s.now at (spell (natural n)) result }
{
    if n < 10 {
        return text_scan::spell(s, at, &[b'0' + n]);
    }
    text_scan::spell(s, at, &[b'1', b'0' + (n - 10)])
}

// The variable v again, once its `$` is read.
pub fn variable_is(s: &[u8], at: usize, v: u8) -> Result<Read<u8>, Lost>
    requires { (at ≤ length s.now) × (v ≤ 15) }
    ensures { Reads same s.now at (variable_is_lem v) result }
{
    let mark = text_scan::here(s, at, b"v")?;
    spell_small(s, mark.at, v)
}

pub fn arrow(s: &[u8], at: usize) -> Result<Read<u8>, Lost>
    requires { at ≤ length s.now }
    ensures { Reads same s.now at arrow result }
{
    let mark = text_scan::sign(s, at, b"<")?;
    text_scan::here(s, mark.at, b"-")
}

// What follows the minus sign of a number, as the bits of the negative one.
fn negative(s: &[u8], at: usize) -> Result<Read<u32>, Lost>
    requires { at ≤ length s.now }
    ensures { Reads same s.now at negative result }
{
    let first = text_scan::here(s, at, b"123456789")?;
    let n = text_scan::digits(s, first.at, first.value as u32, 2147483648);
    Ok(Read {
        value: u32::MAX - n.value.saturating_sub(1),
        at: n.at,
    })
}

// A signed number, by its bits.
pub fn number(s: &[u8], at: usize) -> Result<Read<u32>, Lost>
    requires { at ≤ length s.now }
    ensures { Reads same s.now at number result }
{
    let first = text_scan::sign(s, at, b"-0123456789")?;
    if first.value == b'-' {
        return negative(s, first.at);
    }
    Ok(text_scan::digits(s, first.at, first.value as u32, 2147483647))
}
