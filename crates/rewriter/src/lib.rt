// Fuse, split and reorder, on any sheet in memory.
#![tactic(auto)]

ghost use Rattle.std.specs.Prelude.{◌≡◌};
ghost use Rattle.sheet.specs.Answer.{paper};
ghost use Rattle.rewrite_rules.specs.Answers.{Rewrites};
ghost use Rattle.rewriter.specs.Calls.{calm_stands, fuse_of, split_of, reorder_of};

use base_refusal::{Reason, Refusal};
use sheet::Sheet;

// The sheet's own refusal, then 13 where it is not calm.
fn calm_stands(t: Sheet) -> Result<(), Refusal>
    ensures { paper result ≡ calm_stands t }
{
    if !counts::calm(t)? {
        return Err(Reason::NotCalm.into());
    }
    Ok(())
}

// Fuse a: 13 where the sheet is not calm, 14, 15 and 16; else the sheet with a and the line after it as one.
pub fn fuse(t: Sheet, a: u8) -> Result<Sheet, Refusal>
    ensures { Rewrites (fuse_of t a) result }
{
    calm_stands(t)?;
    rewrite_fuse::fuse_calm(t, a)
}

// Split a, k ways: 13 where the sheet is not calm, 14 to 17; else the sheet with a deal, k copies of the line and a gather in its place.
pub fn split(t: Sheet, a: u8, k: u8) -> Result<Sheet, Refusal>
    ensures { Rewrites (split_of t a k) result }
{
    calm_stands(t)?;
    rewrite_split::split_calm(t, a, k)
}

// Reorder a: 13 where the sheet is not calm, 14, 15 and 17; else the sheet with the steps of a and of the line after it exchanged.
pub fn reorder(t: Sheet, a: u8) -> Result<Sheet, Refusal>
    ensures { Rewrites (reorder_of t a) result }
{
    calm_stands(t)?;
    rewrite_reorder::reorder_calm(t, a)
}
