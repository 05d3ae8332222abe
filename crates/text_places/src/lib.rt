// The place of a byte of an input as a line and a column, and the line of a refusal at a byte.
#![tactic(auto)]

ghost use Rattle.std.specs.Prelude.{◌+◌, ◌≤◌, ◌≡◌, ◌++◌, length};
ghost use Rattle.base_bounds.specs.Bounds.{INPUT_BYTES};
ghost use Rattle.base_words.specs.Text.{natural};
ghost use Rattle.text_parts.specs.Put.{PutsUpTo};
ghost use Rattle.text_places.specs.Places.{past_byte, place_after, place_of, outside_line};
ghost use Rattle.text_places.specs.Put.{NATURAL_TEXT, OUTSIDE_TEXT, placed};

// A line and a column, from 1.
#[derive(Clone, Copy)]
struct Place {
    line: usize,
    column: usize,
}

// The place after a byte.
fn past(p: Place, b: u8) -> Place
    requires { (p.line ≤ INPUT_BYTES) × (p.column ≤ INPUT_BYTES) }
    ensures { placed result ≡ past_byte (placed p) b }
{
    if b == b'\n' {
        return Place {
            line: p.line + 1,
            column: 1,
        };
    }
    Place {
        line: p.line,
        column: p.column + 1,
    }
}

// The place after these bytes.
fn locate(s: &[u8]) -> Place
    requires { length s.now ≤ INPUT_BYTES }
    ensures { placed result ≡ place_after (1, 1) s.now }
{
    let mut p = Place { line: 1, column: 1 };
    for b in s {
        p = past(p, *b);
    }
    p
}

// A word and a number.
fn put_numbered(s: &mut [u8], at: usize, w: &[u8], n: usize) -> usize
    requires { at + (length w.now + NATURAL_TEXT) ≤ length s.old }
    ensures { PutsUpTo (length w.now + NATURAL_TEXT) (w.now ++ natural n) s.old at s.new result }
{
    let a = base_words::put_word(s, at, w);
    base_words::put_natural(s, a, n)
}

// The line of refusal 19 at a byte that lies at a place.
fn put_place(s: &mut [u8], byte: usize, p: Place) -> usize
    requires { OUTSIDE_TEXT ≤ length s.old }
    ensures { PutsUpTo OUTSIDE_TEXT (outside_line 19 byte (placed p)) s.old 0 s.new result }
{
    let a = put_numbered(s, 0, b"refused 19 at byte ", byte);
    let b = put_numbered(s, a, b", line ", p.line);
    let d = put_numbered(s, b, b" column ", p.column);
    base_words::put_word(s, d, b"\n")
}

// The line of refusal 19 at a byte of the input, at the front of `s`. Answers the place after it.
pub fn put_outside(s: &mut [u8], input: &[u8], at: usize) -> usize
    requires { (OUTSIDE_TEXT ≤ length s.old) × (at ≤ length input.now) × (length input.now ≤ INPUT_BYTES) }
    ensures { PutsUpTo OUTSIDE_TEXT (outside_line 19 at (place_of input.now at)) s.old 0 s.new result }
{
    let p = locate(&input[..at]);
    put_place(s, at, p)
}
