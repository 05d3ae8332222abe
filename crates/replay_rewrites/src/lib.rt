// The calls that change the sheet: the rewritings, 6 to 8, made and printed as the other calls on a sheet, and the two that read one, 2 and 19.
#![tactic(auto)]

use base_refusal::Refusal;
use replay_held::Holding;
use replay_printer::Printer;
use sheet::Sheet;

fn bad_sheet(sheet: Sheet, out: &mut Printer<'_>) -> Sheet {
    out.bad();
    sheet
}

fn done_sheet(answer: Result<Sheet, Refusal>, old: Sheet, out: &mut Printer<'_>) -> Sheet {
    replay_forms::changed(answer, old, b"done", out)
}

// Which of them a number is, with its body.
fn sheet_call(call: u8, body: &[u8], t: Sheet, out: &mut Printer<'_>) -> Sheet {
    match (call, body) {
        (2, _) => replay_forms::call_read(body, t, out),
        (6, [a]) => done_sheet(rewriter::fuse(t, *a), t, out),
        (7, [a, k]) => done_sheet(rewriter::split(t, *a, *k), t, out),
        (8, [a]) => done_sheet(rewriter::reorder(t, *a), t, out),
        (19, _) => replay_forms::call_read_text(body, t, out),
        _ => bad_sheet(t, out),
    }
}

// The call made, and what is held afterwards.
pub fn change_sheet(call: u8, body: &[u8], held: Holding, out: &mut Printer<'_>) -> Holding {
    let sheet = sheet_call(call, body, held.sheet, out);
    Holding { sheet, ..held }
}
