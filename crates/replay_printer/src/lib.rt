// Text for standard output. It waits in a lent buffer, and is written when that is full.
#![tactic(auto)]

ghost use Rattle.std.specs.Prelude.{◌≡◌, ◌*◌, ◌+◌, ◌<◌, length};

use base_refusal::Refusal;
use run_store::Item;

const STANDARD_OUTPUT: i32 = 1;

// The lent buffer, of which the first `used` bytes wait; there is always room for one more.
pub struct Printer<'a> {
    out: &'a mut [u8],
    used: usize,
    ghost room: { used < length out.now },
}

impl<'a> Printer<'a> {
    // Nothing waits in a new one.
    pub fn new(out: &'a mut [u8]) -> Printer<'a>
        requires { 0 < length out.old }
        ensures { result.used ≡ 0 }
    {
        Printer { out, used: 0 }
    }

    // Puts one byte behind those that wait.
    pub fn byte(&mut self, b: u8) {
        self.used = put(&mut *self.out, self.used, b);
    }

    // Writes what waits; a printer ends here.
    pub fn end(self) {
        let Printer { out, used } = self;
        io::write_all(STANDARD_OUTPUT, &out[..used]);
    }

    pub fn text(&mut self, s: &[u8]) {
        let out = &mut *self.out;
        let mut at = self.used;
        for b in s {
            at = put(&mut *out, at, *b);
        }
        self.used = at;
    }

    // The first n bytes of a text that has them.
    pub fn front(&mut self, text: &[u8], n: usize) {
        if n <= text.len() {
            self.text(&text[..n]);
        }
    }

    pub fn line(&mut self, s: &[u8]) {
        self.text(s);
        self.byte(b'\n');
    }

    pub fn number(&mut self, n: u64) {
        let mut digits = [0u8; 20];
        let k = io::decimal(n, &mut digits);
        self.text(&digits[..k]);
    }

    // A signed number, its sign first.
    pub fn signed(&mut self, z: i32) {
        if z < 0 {
            self.byte(b'-');
        }
        self.number(u64::from(z.unsigned_abs()));
    }

    // A space and a number.
    pub fn next(&mut self, n: u64) {
        self.byte(b' ');
        self.number(n);
    }

    // A word, a space and a number.
    pub fn named(&mut self, word: &[u8], n: u64) {
        self.text(word);
        self.next(n);
    }

    pub fn next_signed(&mut self, z: i32) {
        self.byte(b' ');
        self.signed(z);
    }

    // The bytes of s in lower-case hex.
    pub fn hex(&mut self, s: &[u8]) {
        let room = self.out.len() - self.used;
        if s.len() < room / 2 {
            self.hex_into(s);
        } else {
            self.hex_by_byte(s);
        }
    }

    // Stores straight into the buffer, which has room for all of it: no test for a full buffer at each digit.
    fn hex_into(&mut self, s: &[u8])
        requires { self.old.used + 2 * length s.now < length self.old.out.now }
    {
        let out = &mut *self.out;
        let mut at = self.used;
        for b in s {
            let b = *b;
            out[at] = glyph(b / 16);
            out[at + 1] = glyph(b % 16);
            at += 2;
        }
        self.used = at;
    }

    // Through `put`, which writes the buffer whenever it is full.
    fn hex_by_byte(&mut self, s: &[u8]) {
        let out = &mut *self.out;
        let mut at = self.used;
        for b in s {
            let b = *b;
            at = put(&mut *out, at, glyph(b / 16));
            at = put(&mut *out, at, glyph(b % 16));
        }
        self.used = at;
    }

    // A refusal's line, with the record where it names one.
    pub fn refusal(&mut self, e: Refusal) {
        let number = u8::from(e.reason);
        match e.spot {
            Some(spot) => self.refused_at(number, b" at record", spot as u64),
            None => self.refused(number),
        }
    }

    fn refused(&mut self, number: u8) {
        self.named(b"refused", u64::from(number));
        self.byte(b'\n');
    }

    // A refusal with what the place is, a record or a byte, and which.
    pub fn refused_at(&mut self, number: u8, place: &[u8], spot: u64) {
        self.named(b"refused", u64::from(number));
        self.named(place, spot);
        self.byte(b'\n');
    }

    pub fn item(&mut self, x: Item) {
        for z in &x.f {
            self.next_signed(*z);
        }
        self.byte(b'\n');
    }

    pub fn bad(&mut self) {
        self.line(b"bad call");
    }

    // What a call says that is done wherever its body is good.
    pub fn done(&mut self, good: bool) {
        if good {
            self.line(b"done");
        } else {
            self.bad();
        }
    }
}

// Puts one byte behind the first `used`, and writes the buffer when it is full; how many wait then. A loop keeps
// buffer and count in places of its own, and not behind a printer, so that neither is loaded again for each byte.
fn put(out: &mut [u8], used: usize, b: u8) -> usize
    requires { used < length out.old }
    ensures { result < length out.new }
{
    out[used] = b;
    let next = used + 1;
    if next < out.len() {
        return next;
    }
    io::write_all(STANDARD_OUTPUT, &*out);
    0
}

fn glyph(d: u8) -> u8
    requires { d < 16 }
{
    if d < 10 { b'0' + d } else { b'a' + (d - 10) }
}
