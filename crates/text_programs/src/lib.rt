// What `to_text` and `to_bytes` put out of one input, as functions from its bytes to a lent buffer.
#![tactic(auto)]

ghost use Rattle.std.specs.Prelude.{◌≤◌, ◌≡◌, length};
ghost use Rattle.std.specs.Option.{unwrap_or};
ghost use Rattle.base_bounds.specs.Bounds.{INPUT_BYTES};
ghost use Rattle.base_refusal.specs.Refusal.{number_of};
ghost use Rattle.bench_lines.specs.Lines.{refusal_line};
ghost use Rattle.sheet.specs.Answer.{accepted};
ghost use Rattle.sheet.specs.Sheet.{view_sheet};
ghost use Rattle.sheet.specs.Check.{check_of};
ghost use Rattle.text_places.specs.Places.{place_of, outside_line};
ghost use Rattle.codec_write.specs.Write.{sheet_bytes};
ghost use Rattle.text_programs.specs.Output.{out, err, text_line, to_text_of, to_bytes_of};
ghost use Rattle.text_programs.specs.Sends.{OUTPUT, Sends};

use base_refusal::{Reason, Refusal};
use sheet::Sheet;
use text_read::TextRefusal;

// No program takes a longer input.
const INPUT: usize = base_bounds::INPUT_BYTES;

// One byte more, so that a longer input is seen.
pub const SEEN: usize = INPUT + 1;

// A buffer of this length is always enough: the longest output is a sheet's text with its newline.
pub const OUTPUT: usize = text_print::SHEET_TEXT + 1;

// Each function answers how many bytes at the buffer's front are put out: to standard output with `Ok`,
// to standard error with `Err`.

// A refusal at a record.
fn refused(buffer: &mut [u8], e: Refusal) -> Result<usize, usize>
    requires { OUTPUT ≤ length buffer.old }
    ensures { Sends (err (refusal_line (number_of e.reason) (unwrap_or e.spot 0))) buffer.old buffer.new result }
{
    let n = bench_lines::put_refusal(buffer, 0, e.reason.into(), e.spot.unwrap_or(0));
    Err(n)
}

// Refusal 19 at a byte of the input.
fn outside(input: &[u8], at: usize, buffer: &mut [u8]) -> Result<usize, usize>
    requires { (OUTPUT ≤ length buffer.old) × (at ≤ length input.now) × (length input.now ≤ INPUT_BYTES) }
    ensures { Sends (err (outside_line 19 at (place_of input.now at))) buffer.old buffer.new result }
{
    Err(text_places::put_outside(buffer, input, at))
}

fn sheet_text(t: Sheet, buffer: &mut [u8]) -> Result<usize, usize>
    requires { (check_of t ≡ accepted) × (OUTPUT ≤ length buffer.old) }
    ensures { Sends (out (text_line (view_sheet t))) buffer.old buffer.new result }
{
    let n = text_print::put_text(buffer, t);
    buffer[n] = b'\n';
    Ok(n + 1)
}

fn sheet_bytes(t: Sheet, buffer: &mut [u8]) -> Result<usize, usize>
    requires { (check_of t ≡ accepted) × (OUTPUT ≤ length buffer.old) }
    ensures { Sends (out (sheet_bytes (view_sheet t))) buffer.old buffer.new result }
{
    Ok(codec_write::write(t, buffer).unwrap_or(0))
}

// A sheet's bytes: its text and a newline, or the refusal.
pub fn to_text(input: &[u8], buffer: &mut [u8]) -> Result<usize, usize>
    requires { OUTPUT ≤ length buffer.old }
    ensures { Sends (to_text_of input.now) buffer.old buffer.new result }
{
    if INPUT < input.len() {
        return refused(buffer, Reason::TooShort.at(0));
    }
    match codec_read::read(input) {
        Ok(t) => sheet_text(t, buffer),
        Err(e) => refused(buffer, e),
    }
}

// A text: the bytes of its sheet, or the refusal.
pub fn to_bytes(input: &[u8], buffer: &mut [u8]) -> Result<usize, usize>
    requires { OUTPUT ≤ length buffer.old }
    ensures { Sends (to_bytes_of input.now) buffer.old buffer.new result }
{
    if INPUT < input.len() {
        return refused(buffer, Reason::TooShort.at(0));
    }
    match text_read::read(input) {
        Ok(t) => sheet_bytes(t, buffer),
        Err(TextRefusal::Sheet(e)) => refused(buffer, e),
        Err(TextRefusal::Outside { at }) => outside(input, at, buffer),
    }
}
