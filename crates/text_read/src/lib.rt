// A sheet from text.
#![tactic(auto)]

ghost use Rattle.std.specs.Prelude.{◌≡◌};
ghost use Rattle.sheet.specs.Answer.{accepted};
ghost use Rattle.sheet.specs.Check.{check_of};
ghost use Rattle.text_read.specs.Reads.{ListsRead, ReadsText};
ghost use Rattle.text_read.specs.declared.TextRefusal.TheVariants.{Sheet, Outside};

use base_refusal::Refusal;
use sheet::Sheet;
use text_scan::Lost;
use text_tree::TextHead;

// Why a text is refused: its sheet is, or it is 19 at the byte from which on the text is not the sheet's.
#[derive(Clone, Copy, Debug, PartialEq, Eq)]
pub enum TextRefusal {
    Sheet(Refusal),
    Outside { at: usize },
}

impl From<Refusal> for TextRefusal {
    ghost from_gives = { λ refusal r. r ≡ Sheet refusal };

    fn from(refusal: Refusal) -> TextRefusal {
        TextRefusal::Sheet(refusal)
    }
}

impl From<Lost> for TextRefusal {
    ghost from_gives = { λ lost r. r ≡ Outside lost.at };

    fn from(lost: Lost) -> TextRefusal {
        TextRefusal::Outside { at: lost.at }
    }
}

// Where the sheet is accepted: whether the lists are its own, in the text's order.
fn with_lists(h: TextHead, t: Sheet) -> Result<Sheet, TextRefusal>
    requires { check_of t ≡ accepted }
    ensures { ListsRead h t result }
{
    if !text_own::same_names(h.outputs.names, text_own::outputs(t)) {
        return Err(TextRefusal::Outside {
            at: h.outputs.start,
        });
    }
    if !text_own::same_names(h.inputs.names, text_own::inputs(t.inputs)) {
        return Err(TextRefusal::Outside { at: h.inputs.start });
    }
    Ok(t)
}

// Any bytes: the sheet of a text, or 19 at a byte, or refusal 3 to 7 with its record.
#[tactic(auto, using(crate::proofs::Told::head_told, crate::proofs::Told::operators_told))]
pub fn read(s: &[u8]) -> Result<Sheet, TextRefusal>
    ensures { ReadsText s.now result }
{
    let head = text_tree::head(s)?;
    let held = text_tree::operators(s, head.at)?;
    let h = head.value;
    let t = text_sheet::build(h.inputs.names, h.variables, held.value);
    match sheet::check(t) {
        Ok(()) => with_lists(h, t),
        Err(e) => Err(e.into()),
    }
}
