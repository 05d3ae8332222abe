// Sheets to text.
#![tactic(auto)]

ghost use Rattle.std.specs.Prelude.{◌+◌, ◌*◌, ◌≤◌, ◌≡◌, length};
ghost use Rattle.base_lists.specs.Lists.{chain};
ghost use Rattle.base_bounds.specs.Bounds.{QUEUES, OPERATORS};
ghost use Rattle.sheet_operator.specs.Memory.{view, ways, Ready};
ghost use Rattle.sheet.specs.Answer.{accepted};
ghost use Rattle.sheet.specs.Sheet.{view_sheet};
ghost use Rattle.sheet.specs.Check.{check_of};
ghost use Rattle.text_grammar.specs.Tokens.{printed};
ghost use Rattle.text_parts.specs.Put.{PutsUpTo};
ghost use Rattle.text_form.specs.Form.{outputs_of, inputs_of, sheet_text};
ghost use Rattle.text_print.specs.Names.{name_tokens, names_text, head_tokens, item_tokens, NAME_TEXT, HEAD_TEXT, ITEM_TEXT, SHEET_TEXT};
ghost use Rattle.text_print.specs.Print.{Prints};

use base_refusal::{Reason, Refusal};
use sheet::Sheet;
use sheet_operator::Operator;
use text_lists::KeptNames;

// Every sheet's text has room in this many bytes.
pub const SHEET_TEXT: usize = 4096;

// A name in a list: a space before the first, a comma and a space before the others.
fn put_name(s: &mut [u8], at: usize, first: bool, q: u8) -> usize
    requires { at + NAME_TEXT ≤ length s.old }
    ensures { PutsUpTo NAME_TEXT (printed (name_tokens first q)) s.old at s.new result }
{
    if first {
        return text_parts::put_byte(s, at, b" q", q);
    }
    text_parts::put_byte(s, at, b", q", q)
}

// The names of a list, as many as there are places for.
fn put_names(s: &mut [u8], at: usize, n: KeptNames) -> usize
    requires { (n.count ≤ QUEUES) × (at + NAME_TEXT * QUEUES ≤ length s.old) }
    ensures { PutsUpTo (NAME_TEXT * QUEUES) (names_text (ways n.count n.queues)) s.old at s.new result }
{
    let queues = n.queues;
    let count = n.count;
    let mut end = at;
    for i in 0..count {
        end = put_name(s, end, i == 0, queues[i as usize]);
    }
    end
}

fn put_outputs(s: &mut [u8], at: usize, t: Sheet) -> usize
    requires { (check_of t ≡ accepted) × (at + NAME_TEXT * QUEUES ≤ length s.old) }
    ensures { PutsUpTo (NAME_TEXT * QUEUES) (names_text (outputs_of (view_sheet t))) s.old at s.new result }
{
    let n = text_own::outputs(t);
    put_names(s, at, n)
}

fn put_inputs(s: &mut [u8], at: usize, t: Sheet) -> usize
    requires { (check_of t ≡ accepted) × (at + NAME_TEXT * QUEUES ≤ length s.old) }
    ensures { PutsUpTo (NAME_TEXT * QUEUES) (names_text (inputs_of (view_sheet t))) s.old at s.new result }
{
    let n = text_own::inputs(t.inputs);
    put_names(s, at, n)
}

// What stands before the operators.
fn put_head(s: &mut [u8], t: Sheet) -> usize
    requires { (check_of t ≡ accepted) × (HEAD_TEXT ≤ length s.old) }
    ensures { PutsUpTo HEAD_TEXT (printed (head_tokens (view_sheet t))) s.old 0 s.new result }
{
    let a = base_words::put_word(s, 0, b"output");
    let b = put_outputs(s, a, t);
    let d = base_words::put_word(s, b, b"; input");
    let e = put_inputs(s, d, t);
    let f = text_parts::put_byte(s, e, b"; vars ", t.variables);
    base_words::put_word(s, f, b";")
}

// An operator with the mark after it.
fn put_item(s: &mut [u8], at: usize, o: Operator) -> usize
    requires { Ready o × (at + ITEM_TEXT ≤ length s.old) }
    ensures { PutsUpTo ITEM_TEXT (printed (item_tokens (view o))) s.old at s.new result }
{
    let a = text_put::put_operator(s, at, o);
    base_words::put_word(s, a, b";")
}

fn put_items(s: &mut [u8], at: usize, t: Sheet) -> usize
    requires { (check_of t ≡ accepted) × (at + ITEM_TEXT * OPERATORS ≤ length s.old) }
    ensures { PutsUpTo (ITEM_TEXT * OPERATORS) (printed (chain item_tokens (view_sheet t).ops)) s.old at s.new result }
{
    let n = t.count as usize;
    let mut end = at;
    for i in 0..n {
        let o = t.operators[i];
        end = put_item(s, end, o);
    }
    end
}

pub fn put_text(s: &mut [u8], t: Sheet) -> usize
    requires { (check_of t ≡ accepted) × (SHEET_TEXT ≤ length s.old) }
    ensures { PutsUpTo SHEET_TEXT (sheet_text (view_sheet t)) s.old 0 s.new result }
{
    let a = put_head(s, t);
    put_items(s, a, t)
}

// The text of an accepted sheet where the buffer has room for it.
fn print_good(t: Sheet, buffer: &mut [u8]) -> Result<usize, Refusal>
    requires { check_of t ≡ accepted }
    ensures { Prints t buffer.old buffer.new result }
{
    let mut scratch = [0u8; SHEET_TEXT];
    let n = put_text(&mut scratch, t);
    if buffer.len() < n {
        return Err(Reason::TooShort.at(0));
    }
    base_words::put_word(buffer, 0, &scratch[0..n]);
    Ok(n)
}

// Any sheet in memory as text into a lent buffer: its text, and how many bytes it has; or refusal 1 to 7,
// or 18 at record 0, with the buffer as it was.
pub fn print(t: Sheet, buffer: &mut [u8]) -> Result<usize, Refusal>
    ensures { Prints t buffer.old buffer.new result }
{
    sheet::check(t)?;
    print_good(t, buffer)
}
