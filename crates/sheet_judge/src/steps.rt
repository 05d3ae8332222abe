// The steps of a line: each loop asks one thing of every step.
ghost use Rattle.std.specs.Prelude.{◌≡◌, ◌≤◌};
ghost use Rattle.base_lists.specs.Lists.{all};
ghost use Rattle.sheet_step.specs.Step.{step_places, step_variable};
ghost use Rattle.sheet_operator.specs.Memory.{PLACES, steps_in};

use sheet_step::Step;

pub fn steps_variables_good(ss: [Step; sheet_operator::PLACES], n: usize, variables: u8) -> bool
    requires { n ≤ PLACES }
    ensures { result ≡ all (step_variable variables) (steps_in n ss) }
{
    for j in 0..n {
        if !sheet_step::variable_good(ss[j], variables) {
            return false;
        }
    }
    true
}

pub fn steps_places_good(ss: [Step; sheet_operator::PLACES], n: usize) -> bool
    requires { n ≤ PLACES }
    ensures { result ≡ all step_places (steps_in n ss) }
{
    for j in 0..n {
        if !sheet_step::places_good(ss[j]) {
            return false;
        }
    }
    true
}
