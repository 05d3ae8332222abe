// Reading a text from its front: each reader answers what it read and the place behind it, or the byte at which it is lost.
#![tactic(auto)]

ghost use Rattle.std.specs.Prelude.{◌≡◌, ◌-◌, ◌≤◌, length, drop};
ghost use Rattle.text_scan.specs.Reader.{got, is_blank, here, sign, spell, digits, is_digit, goes_on};
ghost use Rattle.text_scan.specs.Reads.{after_blanks, same, Reads};

// What was read, and where reading goes on.
#[derive(Clone, Copy)]
pub struct Read<T> {
    pub value: T,
    pub at: usize,
}

// The byte at which reading is lost.
#[derive(Clone, Copy)]
pub struct Lost {
    pub at: usize,
}

fn is_blank(b: u8) -> bool
    ensures { result ≡ is_blank b }
{
    matches!(b, b' ' | b'\t' | b'\n' | b'\r')
}

// One of some bytes, at once.
pub fn here(s: &[u8], at: usize, ms: &[u8]) -> Result<Read<u8>, Lost>
    requires { at ≤ length s.now }
    ensures { Reads same s.now at (here ms.now) result }
{
    if s.len() <= at || !ms.contains(&s[at]) {
        return Err(Lost { at });
    }
    Ok(Read {
        value: s[at],
        at: at + 1,
    })
}

// The first byte that is no blank, or the end.
pub fn skip(s: &[u8], at: usize) -> usize
    requires { at ≤ length s.now }
    ensures { (result ≤ length s.now) × (drop result s.now ≡ after_blanks (drop at s.now)) }
{
    for i in at..s.len() {
        if !is_blank(s[i]) {
            return i;
        }
    }
    s.len()
}

// One of some bytes, after blanks.
pub fn sign(s: &[u8], at: usize, ms: &[u8]) -> Result<Read<u8>, Lost>
    requires { at ≤ length s.now }
    ensures { Reads same s.now at (sign ms.now) result }
{
    here(s, skip(s, at), ms)
}

// A word, at once.
pub fn spell(s: &[u8], at: usize, w: &[u8]) -> Result<Read<u8>, Lost>
    requires { at ≤ length s.now }
    ensures { Reads same s.now at (spell w.now) result }
{
    let mut end = at;
    for b in w {
        end = here(s, end, &[*b])?.at;
    }
    Ok(Read { value: 0, at: end })
}

fn is_digit(b: u8) -> bool
    ensures { result ≡ is_digit b }
{
    b.is_ascii_digit()
}

// The digit that a byte is, 0 for what lies below.
fn digit(b: u32) -> u32
    ensures { result ≡ b - 48 }
{
    b.saturating_sub(48)
}

fn goes_on(top: u32, n: u32, b: u8) -> bool
    ensures { result ≡ goes_on top n b }
{
    is_digit(b) && n != 0 && 10 * u64::from(n) + u64::from(digit(b as u32)) <= u64::from(top)
}

// The further digits of a number whose first digit's byte is `first`.
pub fn digits(s: &[u8], from: usize, first: u32, top: u32) -> Read<u32>
    requires { from ≤ length s.now }
    ensures { (result.at ≤ length s.now) × (got result.value (drop result.at s.now) ≡ digits top (first - 48) (drop from s.now)) }
{
    let mut n = digit(first);
    for at in from..s.len() {
        let b = s[at];
        if !goes_on(top, n, b) {
            return Read { value: n, at };
        }
        n = 10 * n + digit(b as u32);
    }
    Read {
        value: n,
        at: s.len(),
    }
}
