// The operator that reads each queue of an accepted sheet.
#![tactic(auto)]

ghost use Rattle.std.specs.Prelude.{◌≡◌, true, ltb, get_or};
ghost use Rattle.base_lists.specs.Lists.{all};
ghost use Rattle.sheet_operator.specs.Op.{reads};
ghost use Rattle.sheet_operator.specs.Memory.{view, Ready};
ghost use Rattle.sheet.specs.Answer.{accepted};
ghost use Rattle.sheet.specs.Sheet.{view_sheet};
ghost use Rattle.sheet.specs.Check.{check_of};
ghost use Rattle.base_bounds.specs.Bounds.{OPERATORS, QUEUES};
ghost use Rattle.run_machine.specs.Readers.{readers_of, readers_with};

use sheet::Sheet;
use sheet_operator::Operator;

// One past the last operator, where no operator reads a queue.
const NONE: u8 = base_bounds::OPERATORS;

// The readers with operator i as the one of each of its in queues.
fn with_reader(readers: [u8; run_machine::QUEUES], o: Operator, i: u8) -> [u8; run_machine::QUEUES]
    requires { Ready o × (all (λ q. ltb q QUEUES) (reads (view o)) ≡ true) }
    ensures { result ≡ readers_with readers (reads (view o)) i }
{
    let s = sheet_operator::shape_of(o.kind, o.count);
    let mut r = readers;
    for j in 0..s.ins as usize {
        r[o.ins[j] as usize] = i;
    }
    r
}

// The operator that reads each queue, from the last to the first, so that the first that reads it stands.
pub fn readers(t: Sheet) -> [u8; run_machine::QUEUES]
    requires { check_of t ≡ accepted }
    ensures { result ≡ readers_of (view_sheet t).ops }
{
    let mut r = [NONE; run_machine::QUEUES];
    for i in (0..t.count).rev() {
        let next = with_reader(r, t.operators[i as usize], i);
        r = next;
    }
    r
}

// The place of the operator that reads q; OPERATORS where none does, also where q is no queue.
pub fn reader_at(readers: &[u8; run_machine::QUEUES], q: u8) -> usize
    ensures { result ≡ get_or readers.now q OPERATORS }
{
    match readers.get(q as usize) {
        Some(i) => *i as usize,
        None => sheet::OPERATORS,
    }
}
