// Sheets to bytes.
#![tactic(auto)]

ghost use Rattle.std.specs.Prelude.{◌≡◌, ◌≤◌, length};
ghost use Rattle.std.proofs.lemmas.List.Edits.{sets};
ghost use Rattle.sheet.specs.Answer.{accepted};
ghost use Rattle.sheet.specs.Sheet.{view_sheet};
ghost use Rattle.sheet.specs.Check.{check_of};
ghost use Rattle.codec_write.specs.Write.{sheet_bytes, Writes};

use base_refusal::{Reason, Refusal};
use sheet::Sheet;

// How many bytes an accepted sheet has.
fn bytes_length(t: Sheet) -> usize
    requires { check_of t ≡ accepted }
    ensures { result ≡ length (sheet_bytes (view_sheet t)) }
{
    let n = t.count as usize;
    let mut sum = sheet_format::HEAD_BYTES;
    for i in 0..n {
        let o = t.operators[i];
        sum += sheet_encode::record_length(o);
    }
    sum
}

// An accepted sheet's bytes to the front of a buffer with room for them.
fn put_sheet(buffer: &mut [u8], t: Sheet)
    requires { (check_of t ≡ accepted) × (length (sheet_bytes (view_sheet t)) ≤ length buffer.old) }
    ensures { buffer.new ≡ sets buffer.old 0 (sheet_bytes (view_sheet t)) }
{
    let n = t.count as usize;
    sheet_encode::put_head(buffer, t.inputs, t.queues, t.variables, t.count);
    let mut end = sheet_format::HEAD_BYTES;
    for i in 0..n {
        let o = t.operators[i];
        sheet_encode::put(buffer, end, o);
        end += sheet_encode::record_length(o);
    }
}

// The bytes of an accepted sheet where the buffer has room for them.
fn write_good(t: Sheet, buffer: &mut [u8]) -> Result<usize, Refusal>
    requires { check_of t ≡ accepted }
    ensures { Writes t buffer.old buffer.new result }
{
    let n = bytes_length(t);
    if buffer.len() < n {
        return Err(Reason::TooShort.at(0));
    }
    put_sheet(buffer, t);
    Ok(n)
}

// Any sheet in memory into a lent buffer: its bytes, and how many they are; or refusal 1 to 7,
// or 18 at record 0, with the buffer as it was.
pub fn write(t: Sheet, buffer: &mut [u8]) -> Result<usize, Refusal>
    ensures { Writes t buffer.old buffer.new result }
{
    sheet::check(t)?;
    write_good(t, buffer)
}
