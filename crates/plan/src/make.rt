// Making a plan: into a place of the caller's, which a refusal leaves as it was.
ghost use Rattle.std.specs.Prelude.{◌≡◌, ◌≤◌, length, None, IfOk, MatchResult};
ghost use Rattle.std.specs.Result.{result_err};
ghost use Rattle.fault.specs.First.{First, Judged};
ghost use Rattle.plan.specs.Faults.{refusal_of, Fails};
ghost use Rattle.plan.specs.Plans.{padded, Asked, starting_numbers, starting_support, starting_multipliers};

use crate::checks::judge;
use crate::{MAX_N, Parameters, Plan, PlanFault};

// The list in an array of the plan's, followed by zeros.
fn pad(letters: &[u16]) -> [u16; MAX_N]
    requires { length letters.now ≤ 64 }
    ensures { result ≡ padded letters.now }
{
    let mut all = [0; MAX_N];
    all[..letters.len()].copy_from_slice(letters);
    all
}

// The plan that is asked for, where nothing is at fault.
fn filled(asked: Parameters, support: &[u16], multipliers: &[u16]) -> Plan
    requires { First refusal_of (Fails asked support.now multipliers.now) None }
    ensures { Asked asked support.now multipliers.now result }
{
    Plan {
        size: asked.size as u16,
        n: asked.n,
        t: asked.t,
        w: asked.w,
        k: asked.k,
        l: asked.l,
        support: pad(support),
        multipliers: pad(multipliers),
    }
}

impl Plan {
    // A plan to hold a place until one is made into it: two letters over the field of two elements.
    pub fn starting() -> Plan
        ensures { Asked starting_numbers starting_support starting_multipliers result }
    {
        Plan {
            size: 2,
            n: 2,
            t: 1,
            w: 1,
            k: 1,
            l: 3,
            support: pad(&[0, 1]),
            multipliers: pad(&[1, 1]),
        }
    }

    // The plan that is asked for, or which fault comes first.
    pub fn new(asked: Parameters, support: &[u16], multipliers: &[u16]) -> Result<Plan, PlanFault>
        ensures judged { Judged refusal_of (Fails asked support.now multipliers.now) (result_err result) }
        ensures made { IfOk result (λ p. Asked asked support.now multipliers.now p) }
    {
        judge(asked, support, multipliers)?;
        Ok(filled(asked, support, multipliers))
    }

    // Makes the plan that is asked for, or says which fault comes first.
    pub fn make(
        &mut self,
        asked: Parameters,
        support: &[u16],
        multipliers: &[u16],
    ) -> Result<(), PlanFault>
        ensures judged { Judged refusal_of (Fails asked support.now multipliers.now) (result_err result) }
        ensures written { MatchResult result (λ _. Asked asked support.now multipliers.now self.new) (λ _. self.new ≡ self.old) }
    {
        *self = Plan::new(asked, support, multipliers)?;
        Ok(())
    }
}
