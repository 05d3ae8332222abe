// The ready set where sheet, state and store are good: each queue's reader is tried, and nothing is touched.
#![tactic(auto)]

ghost use Rattle.std.specs.Prelude.{◌≡◌, ◌≤◌, IfSome};
ghost use Rattle.base_lists.specs.Lists.{bit};
ghost use Rattle.run_machine.specs.Ready.{accepts};
ghost use Rattle.run_machine.specs.Numbers.{decode};
ghost use Rattle.run_machine.specs.Calls.{ready_known};
ghost use Rattle.run_machine.specs.Working.{Stands, CanFire, fire_reader};

use run_machine::State;
use sheet::Sheet;
use sheet_operator::Operator;

// 1 where firing queue q's reader would be accepted, else 0.
fn ready_bit(reader: Option<Operator>, q: u8, state: State, store: &[i32]) -> u32
    requires { IfSome reader (λ o. CanFire o q state store.now) }
    ensures { (result ≡ bit (accepts (fire_reader reader (decode state store.now) q))) × (result ≤ 1) }
{
    let Some(o) = reader else {
        return 0;
    };
    match run_machine::try_operator(o, q, state, store) {
        Ok(_) => 1,
        Err(_) => 0,
    }
}

// The ready set, from the highest queue down: each queue's bit is the lowest of twice what came before.
pub fn ready_known(t: Sheet, state: State, store: &[i32]) -> u32
    requires { Stands t state store.now }
    ensures { result ≡ ready_known t state store.now }
{
    let rs = run_reader::readers(t);
    let mut set: u32 = 0;
    for q in (0..base_bounds::QUEUES).rev() {
        let i = run_reader::reader_at(&rs, q);
        let reader = t.operators.get(i).copied();
        let b = ready_bit(reader, q, state, store);
        set = 2 * set + b;
    }
    set
}
