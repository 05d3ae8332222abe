// What the rewritings share: the line that comes after a line.
#![tactic(auto)]

ghost use Rattle.std.specs.Prelude.{◌≡◌};
ghost use Rattle.sheet_operator.specs.Memory.{view};
ghost use Rattle.sheet.specs.Answer.{accepted};
ghost use Rattle.sheet.specs.Check.{check_of};
ghost use Rattle.rewrite_rules.specs.Rewrite.{is_line};
ghost use Rattle.rewrite_rules.specs.Working.{Follows};

use base_refusal::Reason;
use sheet::Sheet;
use sheet_operator::{Kind, Operator};

pub fn is_line(o: Operator) -> bool
    ensures { result ≡ is_line (view o) }
{
    matches!(o.kind, Kind::Line)
}

// The place of the line that reads the out queue of operator a: 14 where there is no such operator,
// 15 where one of the two is no line.
pub fn line_after(t: Sheet, a: u8) -> Result<usize, Reason>
    requires { check_of t ≡ accepted }
    ensures { Follows t a result }
{
    if t.count <= a {
        return Err(Reason::NoOperator);
    }
    let o = t.operators[a as usize];
    if !is_line(o) {
        return Err(Reason::NoLine);
    }
    let Ok(j) = runner::reader_of(t, o.outs[0]) else {
        return Err(Reason::NoLine);
    };
    if !is_line(t.operators[j]) {
        return Err(Reason::NoLine);
    }
    Ok(j)
}
