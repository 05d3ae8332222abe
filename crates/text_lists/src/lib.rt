// A list of names from text, of any length: what the program keeps of it.
#![tactic(auto)]

ghost use Rattle.std.specs.Prelude.{◌≡◌, ◌≤◌, length};
ghost use Rattle.text_scan.specs.Reader.{repeat};
ghost use Rattle.text_scan.specs.Reads.{same, Reads};
ghost use Rattle.text_grammar.specs.Readers.{name_turn, names};
ghost use Rattle.text_lists.specs.Names.{noted, none, turned, ReadsList};

use base_bounds::QUEUES;
use text_scan::{Lost, Read};

pub const NAMES: usize = QUEUES as usize;

// The first names of a list, in their places, and how many there are; one past the places stands for any more.
#[derive(Clone, Copy)]
pub struct KeptNames {
    pub count: u8,
    pub queues: [u8; NAMES],
}

// What is kept with one name more: the list goes on, or that was its last.
#[derive(Clone, Copy)]
pub enum Turn {
    Again(KeptNames),
    Last(KeptNames),
}

// A list, and where it begins.
#[derive(Clone, Copy)]
pub struct NameList {
    pub start: usize,
    pub names: KeptNames,
}

pub fn no_names() -> KeptNames
    ensures { result ≡ none }
{
    KeptNames {
        count: 0,
        queues: [0; NAMES],
    }
}

// One name more, while there is a place for it.
#[tactic(auto, unfolding(crate::specs::Names::noted))]
pub fn with_name(n: KeptNames, q: u8) -> KeptNames
    ensures { result ≡ noted n q }
{
    let k = n.count;
    let mut queues = n.queues;
    if QUEUES <= k {
        return KeptNames {
            count: QUEUES + 1,
            queues,
        };
    }
    queues[k as usize] = q;
    KeptNames {
        count: k + 1,
        queues,
    }
}

// One name, from its digits on, and the mark after it.
fn one_name(s: &[u8], at: usize, names: KeptNames) -> Result<Read<Turn>, Lost>
    requires { at ≤ length s.now }
    ensures { Reads turned s.now at (name_turn noted names) result }
{
    let q = text_names::queue_number(s, at)?;
    let b = text_scan::sign(s, q.at, b",;")?;
    let more = with_name(names, q.value);
    if b.value == b';' {
        return Ok(Read {
            value: Turn::Last(more),
            at: b.at,
        });
    }
    let mark = text_scan::sign(s, b.at, b"q")?;
    Ok(Read {
        value: Turn::Again(more),
        at: mark.at,
    })
}

// The names from the first one's digits on.
fn turns(s: &[u8], at: usize) -> Result<Read<KeptNames>, Lost>
    requires { at ≤ length s.now }
    ensures { Reads same s.now at (repeat (name_turn noted) none) result }
{
    let mut names = no_names();
    let mut from = at;
    loop {
        let t = one_name(s, from, names)?;
        from = t.at;
        match t.value {
            Turn::Again(more) => names = more,
            Turn::Last(all) => {
                return Ok(Read {
                    value: all,
                    at: from,
                });
            }
        }
    }
}

// A list, from behind its word on.
pub fn names(s: &[u8], at: usize) -> Result<Read<NameList>, Lost>
    requires { at ≤ length s.now }
    ensures { ReadsList s.now at names result }
{
    let start = text_scan::skip(s, at);
    let none = NameList {
        start,
        names: no_names(),
    };
    let b = text_scan::here(s, at, b"; \t\n\r")?;
    if b.value == b';' {
        return Ok(Read {
            value: none,
            at: b.at,
        });
    }
    let b = text_scan::sign(s, b.at, b"q;")?;
    if b.value == b';' {
        return Ok(Read {
            value: none,
            at: b.at,
        });
    }
    let all = turns(s, b.at)?;
    Ok(Read {
        value: NameList {
            start,
            names: all.value,
        },
        at: all.at,
    })
}
