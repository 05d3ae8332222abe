// The lists that are an accepted sheet's own, and the test whether a list that was read is one of them.
#![tactic(auto)]

ghost use Rattle.std.specs.Prelude.{◌≡◌, cond, ℕ};
ghost use Rattle.base_lists.specs.Lists.{build};
ghost use Rattle.sheet.specs.Answer.{accepted};
ghost use Rattle.sheet.specs.Sheet.{view_sheet};
ghost use Rattle.sheet.specs.Check.{check_of};
ghost use Rattle.text_lists.specs.Names.{kept_of, noted};
ghost use Rattle.text_form.specs.Form.{outputs_of};
ghost use Rattle.text_own.specs.Own.{same_kept};

use sheet::Sheet;
use text_lists::KeptNames;

// One name more, unless an operator reads it.
fn with_unread(names: KeptNames, q: u8, read: bool) -> KeptNames
    ensures { result ≡ cond read names (noted names q) }
{
    if read {
        return names;
    }
    text_lists::with_name(names, q)
}

// The queues that no operator reads, by number.
pub fn outputs(t: Sheet) -> KeptNames
    requires { check_of t ≡ accepted }
    ensures { result ≡ kept_of (outputs_of (view_sheet t)) }
{
    let readers = run_reader::readers(t);
    let mut names = text_lists::no_names();
    for q in 0..t.queues {
        let i = run_reader::reader_at(&readers, q);
        let next = with_unread(names, q, i < sheet::OPERATORS);
        names = next;
    }
    names
}

// The first n queues.
pub fn inputs(n: u8) -> KeptNames
    ensures { result ≡ kept_of (build n (λ (q : ℕ). q)) }
{
    let mut names = text_lists::no_names();
    for q in 0..n {
        let next = text_lists::with_name(names, q);
        names = next;
    }
    names
}

// Whether two lists have the same names in the same order, as far as they are kept.
pub fn same_names(a: KeptNames, b: KeptNames) -> bool
    ensures { result ≡ same_kept a b }
{
    if a.count != b.count {
        return false;
    }
    let ps = a.queues;
    let qs = b.queues;
    for k in 0..text_lists::NAMES {
        if ps[k] != qs[k] {
            return false;
        }
    }
    true
}
