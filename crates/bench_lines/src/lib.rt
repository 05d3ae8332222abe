// The lines that `bench` prints, into lent bytes. Each function answers the place after what it put.
#![tactic(auto)]

ghost use Rattle.std.specs.Prelude.{◌+◌, ◌*◌, ◌≤◌, ◌≡◌, ◌++◌, length, take};
ghost use Rattle.base_lists.specs.Lists.{chain};
ghost use Rattle.base_words.specs.Text.{word, PutsText};
ghost use Rattle.base_bounds.specs.Bounds.{FIELDS, ROOM};
ghost use Rattle.run_store.specs.Store.{PART};
ghost use Rattle.run_store.specs.Queues.{items_of};
ghost use Rattle.bench_lines.specs.Lines.{spaced, item_line, queue_lines, variable_line, variable_lines, refusal_line, answer, counts_line, SPACED, LINE};

const NEWLINE: u8 = 10;

const SPACE: u8 = 32;

// A space and a number.
fn put_spaced(s: &mut [u8], at: usize, z: i32) -> usize
    requires { at + SPACED ≤ length s.old }
    ensures { PutsText (spaced z) s.old at s.new result × (result ≤ at + SPACED) }
{
    s[at] = SPACE;
    base_words::put_integer(s, at + 1, z)
}

// A space and a number for each field.
fn put_fields(s: &mut [u8], at: usize, fields: &[i32]) -> usize
    requires { at + SPACED * length fields.now ≤ length s.old }
    ensures { PutsText (chain spaced fields.now) s.old at s.new result × (result ≤ at + SPACED * length fields.now) }
{
    let mut end = at;
    for z in fields {
        end = put_spaced(s, end, *z);
    }
    end
}

fn put_item(s: &mut [u8], at: usize, q: u8, fields: &[i32]) -> usize
    requires { (at + LINE ≤ length s.old) × (length fields.now ≡ FIELDS) }
    ensures { PutsText (item_line q fields.now) s.old at s.new result × (result ≤ at + LINE) }
{
    let a = base_words::put_word(s, at, b"q ");
    let b = base_words::put_natural(s, a, q as usize);
    let e = put_fields(s, b, fields);
    s[e] = NEWLINE;
    e + 1
}

// A line for each of the first n items of queue q, oldest first.
pub fn put_items(s: &mut [u8], at: usize, q: u8, n: usize, part: &[i32]) -> usize
    requires { (at + LINE * n ≤ length s.old) × (n ≤ ROOM) × (length part.now ≡ PART) }
    ensures { PutsText (queue_lines q (items_of n part.now)) s.old at s.new result × (result ≤ at + LINE * n) }
{
    let mut end = at;
    for i in 0..n {
        let from = run_store::FIELDS * i;
        let to = from + run_store::FIELDS;
        end = put_item(s, end, q, &part[from..to]);
    }
    end
}

fn put_variable(s: &mut [u8], at: usize, v: usize, z: i32) -> usize
    requires { at + LINE ≤ length s.old }
    ensures { PutsText (variable_line v z) s.old at s.new result × (result ≤ at + LINE) }
{
    let a = base_words::put_word(s, at, b"v ");
    let b = base_words::put_natural(s, a, v);
    let e = put_spaced(s, b, z);
    s[e] = NEWLINE;
    e + 1
}

// A line for each of the first n variables.
pub fn put_variables(s: &mut [u8], at: usize, n: usize, vars: &[i32]) -> usize
    requires { (at + LINE * n ≤ length s.old) × (n ≤ length vars.now) }
    ensures { PutsText (variable_lines 0 (take n vars.now)) s.old at s.new result × (result ≤ at + LINE * n) }
{
    let mut end = at;
    for i in 0..n {
        let z = vars[i];
        end = put_variable(s, end, i, z);
    }
    end
}

pub fn put_refusal(s: &mut [u8], at: usize, number: u8, spot: usize) -> usize
    requires { at + LINE ≤ length s.old }
    ensures { PutsText (refusal_line number spot) s.old at s.new result × (result ≤ at + LINE) }
{
    let a = base_words::put_word(s, at, b"refused ");
    let b = base_words::put_natural(s, a, number as usize);
    let d = base_words::put_word(s, b, b" at record ");
    let e = base_words::put_natural(s, d, spot);
    s[e] = NEWLINE;
    e + 1
}

// The end of the counts' line.
fn put_rest(s: &mut [u8], at: usize, rest: bool) -> usize
    requires { at + 4 ≤ length s.old }
    ensures { PutsText (answer rest ++ word "\n") s.old at s.new result × (result ≤ at + 4) }
{
    if rest {
        return base_words::put_word(s, at, b"yes\n");
    }
    base_words::put_word(s, at, b"no\n")
}

pub fn put_counts(s: &mut [u8], at: usize, fired: usize, skipped: usize, rest: bool) -> usize
    requires { at + LINE ≤ length s.old }
    ensures { PutsText (counts_line fired skipped rest) s.old at s.new result × (result ≤ at + LINE) }
{
    let a = base_words::put_word(s, at, b"fired ");
    let b = base_words::put_natural(s, a, fired);
    let d = base_words::put_word(s, b, b" skipped ");
    let e = base_words::put_natural(s, d, skipped);
    let f = base_words::put_word(s, e, b" rest ");
    put_rest(s, f, rest)
}
