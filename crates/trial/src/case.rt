// What every trial makes first: the plan that it asks for, with the field that it names.
ghost use Rattle.std.specs.Prelude.{◌≡◌, Ok, MatchResult};
ghost use Rattle.plan.specs.declared.asked.Parameters.{Parameters};
ghost use Rattle.plan.specs.Plans.{Asked};
ghost use Rattle.trial.specs.Made.{Refused};

use fault::Refusal;
use field::{Field, FieldFault};
use plan::{Parameters, Plan};

// The numbers of a plan, by their order: so many cases are asked for that their names would hide the numbers.
pub fn numbers(size: usize, n: usize, t: usize, w: usize, k: usize, l: usize) -> Parameters
    ensures { result ≡ record { size = size; n = n; t = t; w = w; k = k; l = l } }
{
    Parameters {
        size,
        n,
        t,
        w,
        k,
        l,
    }
}

// The plan that is asked for and the field that was made, or the refusal of the plan, or else that of the field.
pub fn made<F: Field + Drop>(
    field: Result<F, FieldFault>,
    asked: Parameters,
    support: &[u16],
    multipliers: &[u16],
) -> Result<(Plan, F), Refusal>
    ensures { MatchResult result (λ r. Asked asked support.now multipliers.now (r.0) × (field ≡ Ok (r.1))) (λ refusal. Refused field asked support.now multipliers.now refusal) }
{
    let mut plan = Plan::starting();
    plan.make(asked, support, multipliers)?;
    Ok((plan, field?))
}
