// The code of a plan over a field, as the calls of this crate work with it.
ghost use Rattle.std.specs.Prelude.{◌≡◌};

use field::Field;
use plan::Plan;

mod methods;

// A plan and a field of the plan's size.
#[derive(Drop)]
pub(crate) struct PlanCode<'a, F: Field> {
    pub(crate) plan: &'a Plan,
    pub(crate) field: &'a F,
    ghost same_size: { plan.now.size ≡ (F.meaning field.now).size },
}
