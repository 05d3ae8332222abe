// Text into lent bytes: words, and numbers in decimal. Each function answers the place after what it put.
#![tactic(auto)]

ghost use Rattle.std.specs.Prelude.{◌+◌, ◌≤◌, ◌≡◌, length};
ghost use Rattle.base_words.specs.Text.{natural, integer, PutsText};

pub fn put_word(s: &mut [u8], at: usize, w: &[u8]) -> usize
    requires { at + length w.now ≤ length s.old }
    ensures { PutsText w.now s.old at s.new result }
{
    let end = at + w.len();
    s[at..end].copy_from_slice(w);
    end
}

// How many digits a number has.
fn width(n: usize) -> usize
    ensures { result ≡ length (natural n) }
{
    let mut m = n;
    let mut w = 1;
    while 9 < m {
        m /= 10;
        w += 1;
    }
    w
}

// A number's digits, from the last to the first.
pub fn put_natural(s: &mut [u8], at: usize, n: usize) -> usize
    requires { at + length (natural n) ≤ length s.old }
    ensures { PutsText (natural n) s.old at s.new result }
{
    let w = width(n);
    let mut m = n;
    let mut i = w - 1;
    while 9 < m {
        s[at + i] = 48 + (m % 10) as u8;
        m /= 10;
        i -= 1;
    }
    s[at] = 48 + (m % 10) as u8;
    at + w
}

// A signed number, by its bits: from 2^31 on they are a negative one's.
pub fn put_integer(s: &mut [u8], at: usize, z: i32) -> usize
    requires { at + length (integer z) ≤ length s.old }
    ensures { PutsText (integer z) s.old at s.new result }
{
    let b = base_number::bits(z) as usize;
    if b < 2147483648 {
        return put_natural(s, at, b);
    }
    s[at] = 45;
    put_natural(s, at + 1, 4294967296 - b)
}
