// The calls that read a sheet and write one, 2 and 3 as bytes, 19 and 20 as text, made and printed as the other calls on a sheet.
#![tactic(auto)]

ghost use Rattle.std.specs.Prelude.{◌≡◌, ◌≤◌, IfSome};
ghost use Rattle.std.specs.Result.{result_unwrap_or};

use base_refusal::Refusal;
use replay_printer::Printer;
use sheet::Sheet;
use text_read::TextRefusal;

// How many bytes a call lends at the most, and what each of them is before the call.
const LENT: usize = 4096;

const BEFORE: u8 = 170;

// The refusal of a text that is no sheet's.
const OUTSIDE: u8 = 19;

// A call that may leave another sheet: its answer is printed, and the sheet is the new one where it was done, else the one before.
pub fn changed(
    answer: Result<Sheet, Refusal>,
    before: Sheet,
    word: &[u8],
    out: &mut Printer<'_>,
) -> Sheet
    ensures { result ≡ result_unwrap_or answer before }
{
    match answer {
        Ok(_) => out.line(word),
        Err(e) => out.refusal(e),
    }
    replay_held::kept(answer, before)
}

// 2
pub fn call_read(body: &[u8], t: Sheet, out: &mut Printer<'_>) -> Sheet {
    changed(codec_read::read(body), t, b"read", out)
}

fn put_text_refusal(e: TextRefusal, out: &mut Printer<'_>) {
    match e {
        TextRefusal::Sheet(refusal) => out.refusal(refusal),
        TextRefusal::Outside { at } => out.refused_at(OUTSIDE, b" at byte", at as u64),
    }
}

// The same as `changed`, of a text that was read.
fn changed_by_text(
    answer: Result<Sheet, TextRefusal>,
    before: Sheet,
    out: &mut Printer<'_>,
) -> Sheet
    ensures { result ≡ result_unwrap_or answer before }
{
    match answer {
        Ok(_) => out.line(b"read"),
        Err(e) => put_text_refusal(e, out),
    }
    replay_held::kept(answer, before)
}

// 19
pub fn call_read_text(body: &[u8], t: Sheet, out: &mut Printer<'_>) -> Sheet {
    changed_by_text(text_read::read(body), t, out)
}

// How many bytes a body asks to be lent, where it is a number and not too many.
fn asked(body: &[u8]) -> Option<usize>
    ensures { IfSome result (λ n. n ≤ 4096) }
{
    if body.len() != 2 {
        return None;
    }
    let n = base_number::short_at(body, 0);
    if n <= LENT { Some(n) } else { None }
}

// 3 and 20: the sheet written to a lent buffer, as bytes or as text, and the buffer as it is then.
pub fn call_lent<F: FnOnce(Sheet, &mut [u8]) -> Result<usize, Refusal>>(
    write: F,
    word: &[u8],
    body: &[u8],
    t: Sheet,
    out: &mut Printer<'_>,
)
    requires { F.IsAlwaysCallable write }
{
    let mut lent = [BEFORE; LENT];
    match asked(body) {
        Some(n) => {
            let answer = write(t, &mut lent[..n]);
            put_written(answer, word, &lent[..n], out);
        }
        None => out.bad(),
    }
}

// The refusal's line, or a word and the whole lent buffer.
fn put_written(answer: Result<usize, Refusal>, word: &[u8], lent: &[u8], out: &mut Printer<'_>) {
    match answer {
        Ok(_) => {
            out.text(word);
            out.hex(lent);
            out.byte(b'\n');
        }
        Err(e) => out.refusal(e),
    }
}
