// Sheets from bytes.
#![tactic(auto)]

ghost use Rattle.std.specs.Prelude.{◌≡◌, ◌≤◌, length, Ok};
ghost use Rattle.base_bounds.specs.Bounds.{OPERATORS};
ghost use Rattle.sheet_sets.specs.Sets.{FLAGS};
ghost use Rattle.sheet_decode.specs.Takes.{head_answered, head_taken};
ghost use Rattle.sheet.specs.Sheet.{memory_sheet};
ghost use Rattle.codec_read.specs.Fronts.{headed, ReadsOperator, Fronts, Ends, Reads};

use base_refusal::{Reason, Refusal};
use sheet::Sheet;
use sheet_decode::Head;
use sheet_judge::Seen;
use sheet_operator::Operator;

// The head and N operators that were read, where they end, and whether every queue is defined.
#[derive(Clone, Copy)]
pub struct Front {
    pub sheet: Sheet,
    pub end: usize,
    pub whole: bool,
}

// A head's sheet with no operator yet.
fn bare(h: Head) -> Sheet
    ensures { result ≡ memory_sheet (headed h) }
{
    let operators = [sheet_decode::NO_OPERATOR; sheet::OPERATORS];
    Sheet {
        inputs: h.inputs,
        queues: h.queues,
        variables: h.variables,
        count: 0,
        operators,
    }
}

// An operator that was read, what is known with it, and where the next record starts.
#[derive(Clone, Copy)]
struct ReadOperator {
    op: Operator,
    seen: Seen,
    next: usize,
}

// The operator's record at `at`, after those seen.
fn read_operator(
    s: &[u8],
    at: usize,
    queues: u8,
    variables: u8,
    seen: Seen,
) -> Result<ReadOperator, Reason>
    requires { (at ≤ length s.now) × (queues ≤ FLAGS) × (variables ≤ FLAGS) }
    ensures { ReadsOperator queues variables seen s.now at result }
{
    let r = sheet_decode::take(s, at)?;
    let next = sheet_judge::admit(queues, variables, seen, r.op)?;
    Ok(ReadOperator {
        op: r.op,
        seen: next,
        next: r.next,
    })
}

// The operators after a good head.
fn read_operators(s: &[u8], h: Head) -> Result<Front, Refusal>
    requires { head_answered (Ok h) ≡ head_taken s.now }
    ensures { Fronts s.now result }
{
    let n = h.count as usize;
    let queues = h.queues;
    let variables = h.variables;
    let mut t = bare(h);
    let mut seen = sheet_judge::inputs_seen(h.inputs);
    let mut at = sheet_format::HEAD_BYTES;
    for i in 0..n {
        let spot = (i + 1) as u8;
        match read_operator(s, at, queues, variables, seen) {
            Ok(r) => {
                t.operators[i] = r.op;
                t.count = spot;
                seen = r.seen;
                at = r.next;
            }
            Err(reason) => return Err(reason.at(spot as usize)),
        }
    }
    let whole = sheet_judge::all_defined(seen, queues);
    Ok(Front {
        sheet: t,
        end: at,
        whole,
    })
}

// The head and its N operators at the front of the bytes, and where they end.
pub fn read_front(s: &[u8]) -> Result<Front, Refusal>
    ensures { Fronts s.now result }
{
    match sheet_decode::take_head(s) {
        Ok(h) => read_operators(s, h),
        Err(reason) => Err(reason.at(0)),
    }
}

// What is left over, and queues that are never defined.
fn ended(s: &[u8], f: Front) -> Result<Sheet, Refusal>
    requires { f.sheet.count ≤ OPERATORS }
    ensures { Ends (length s.now) f result }
{
    let past = f.sheet.count as usize + 1;
    if f.end != s.len() {
        return Err(Reason::BadLength.at(past));
    }
    if !f.whole {
        return Err(Reason::QueueNotOnce.at(past));
    }
    Ok(f.sheet)
}

// Any bytes: a sheet, or refusal 1 to 7 with its record.
pub fn read(s: &[u8]) -> Result<Sheet, Refusal>
    ensures { Reads s.now result }
{
    let f = read_front(s)?;
    ended(s, f)
}
