// What `to_text` and `to_bytes` do with the streams: the input into lent bytes, and what they put out to one of
// the two outputs.
#![tactic(auto)]

ghost use Rattle.std.specs.Prelude.{◌<◌, ◌≤◌, ◌≡◌, length, MatchResult};

use base_input::Filled;
use std::io::Stdin;

const STANDARD_OUTPUT: i32 = 1;

const STANDARD_ERROR: i32 = 2;

// Standard input into the lent bytes, until they are full or it ends. A read that failed is told on standard error.
pub fn take(stdin: Stdin, s: &mut [u8]) -> Filled
    ensures { (result.end ≤ length s.new) × (result.end < length s.old → result.added ≡ 0) }
{
    let n = s.len();
    let f = base_input::fill(stdin, s, 0, n);
    if f.failed {
        io::write_all(STANDARD_ERROR, b"cannot read\n");
    }
    f
}

// A program on the streams: the input into lent bytes, and as many bytes at the buffer's front as the program
// answers to standard output, or with `Err` to standard error.
pub fn run<F: FnOnce(&[u8], &mut [u8]) -> Result<usize, usize>>(
    stdin: Stdin,
    input: &mut [u8],
    buffer: &mut [u8],
    program: F,
)
    requires callable { (s : _) (lent : _) → length lent.now ≡ length buffer.old → F.pre program s lent }
    requires within { (s : _) (lent : _) (r : _) (left : _) → F.post program s lent r left
        → MatchResult r (λ n. n ≤ length left.now) (λ n. n ≤ length left.now) }
{
    let f = take(stdin, input);
    if f.failed {
        return;
    }
    match program(&input[..f.end], &mut *buffer) {
        Ok(n) => io::write_all(STANDARD_OUTPUT, &buffer[..n]),
        Err(n) => io::write_all(STANDARD_ERROR, &buffer[..n]),
    };
}
