// Standard input, read into lent bytes.
#![tactic(auto)]

ghost use Rattle.std.specs.Prelude.{◌+◌, ◌≤◌, ◌<◌, ◌≡◌, length};

use std::io::{Read, Stdin};

// The most bytes that one read asks for, so that a long input takes several.
const PIECE: usize = 16384;

// Where the bytes that were read end, how many of them the last read added, and whether it failed.
#[derive(Clone, Copy)]
pub struct Filled {
    pub end: usize,
    pub added: usize,
    pub failed: bool,
}

// Where a read behind the first `end` bytes of `size` stops.
fn piece_end(end: usize, size: usize) -> usize
    requires { end ≤ size }
    ensures { (end ≤ result) × (result ≤ size) }
{
    if size - end < PIECE {
        return size;
    }
    end + PIECE
}

// Reads on behind the first `end` bytes, once. Where the input has ended, nothing is added.
pub fn more(stdin: Stdin, s: &mut [u8], end: usize) -> Filled
    requires { end ≤ length s.old }
    ensures { (result.end ≡ end + result.added) × (result.end ≤ length s.new) }
{
    let to = piece_end(end, s.len());
    let mut input = stdin;
    match input.read(&mut s[end..to]) {
        Ok(added) => Filled {
            end: end + added,
            added,
            failed: false,
        },
        Err(_) => Filled {
            end,
            added: 0,
            failed: true,
        },
    }
}

// Reads on behind the first `from` bytes until n bytes are there, or a read adds nothing: the input has ended, or the read failed.
pub fn fill(stdin: Stdin, s: &mut [u8], from: usize, n: usize) -> Filled
    requires { from ≤ length s.old }
    ensures { (result.end ≤ length s.new) × (result.end < n → result.added ≡ 0) }
{
    let mut end = from;
    let mut added = 0;
    while end < n {
        let m = more(stdin, &mut *s, end);
        added = m.added;
        if added == 0 {
            return m;
        }
        end += added;
    }
    Filled {
        end,
        added,
        failed: false,
    }
}
