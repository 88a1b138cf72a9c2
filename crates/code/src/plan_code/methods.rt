// How the code of a plan is made.
ghost use Rattle.std.specs.Prelude.{◌≡◌, ◌≢◌, length, IfOk, IfErr};
ghost use Rattle.code.specs.declared.refusal.CodeFault.TheVariants.{Field as OtherField};

use crate::CodeFault;
use crate::plan_code::PlanCode;
use field::Field;
use plan::Plan;

impl<'a, F: Field> PlanCode<'a, F> {
    // The support and the multipliers of a plan are elements only of fields of the plan's size.
    pub(crate) fn new(plan: &'a Plan, field: &'a F) -> Result<PlanCode<'a, F>, CodeFault>
        ensures made { IfOk result (λ c. (c.plan.now ≡ plan.now) × (c.field.now ≡ field.now)) }
        ensures refused { IfErr result (λ fault. (fault ≡ OtherField) × (plan.now.size ≢ (F.meaning field.now).size)) }
    {
        if plan.size() != field.size() {
            return Err(CodeFault::Field);
        }
        Ok(PlanCode { plan, field })
    }
}
