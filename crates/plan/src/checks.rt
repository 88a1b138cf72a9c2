// Read-only checks of what a plan is asked for. They come before anything is written, so that a
// refusal changes nothing, and in the order of the faults, so that the first one is named.
ghost use Rattle.std.specs.Prelude.{◌<◌, ◌≤◌, length, Decides};
ghost use Rattle.std.specs.Result.{result_err};
ghost use Rattle.fault.specs.First.{Judged};
ghost use Rattle.plan.specs.Numbers.{Solvable};
ghost use Rattle.plan.specs.Faults.{refusal_of, BadDistance, BadWidth, BadSupport, BadMultiplier, Fails};
ghost use Rattle.plan.specs.Checks.{FirstBad};
ghost use Rattle.plan.specs.declared.asked.PlanFault.TheVariants.{Shape};

use crate::{MAX_K, MAX_L, MAX_N, MAX_SIZE, Parameters, PlanFault};

impl Parameters {
    // There is no room for words of the length or for elements of the field, or a list is of another length.
    fn bad_shape(self, support: &[u16], multipliers: &[u16]) -> bool
        ensures { Decides result (Fails self support.now multipliers.now Shape) }
    {
        !(2..=MAX_N).contains(&self.n)
            || !(2..=MAX_SIZE).contains(&self.size)
            || support.len() != self.n
            || multipliers.len() != self.n
    }

    fn bad_distance(self) -> bool
        ensures { Decides result (BadDistance self.n self.t) }
    {
        !(1..self.n).contains(&self.t)
    }

    fn bad_errors(self) -> bool
        ensures { Decides result (self.n ≤ self.w) }
    {
        self.w >= self.n
    }

    fn bad_width(self) -> bool
        ensures { Decides result (BadWidth self.k self.l) }
    {
        !(1..=MAX_K).contains(&self.k) || !(self.k + 1..=MAX_L).contains(&self.l)
    }

    // The equations of the interpolation are fewer than its unknowns. What is required keeps the
    // products small: the bounds of the numbers are checked before.
    fn solvable(self) -> bool
        requires word { (self.n ≤ 64) × ((self.t < self.n) × (self.w < self.n)) }
        requires width { (self.k ≤ 4) × ((1 ≤ self.l) × (self.l ≤ 8)) }
        ensures { Decides result (Solvable self.n self.t self.w self.k self.l) }
    {
        let Parameters { n, t, w, k, l, .. } = self;
        let equations = n * (k * (k + 1) / 2);
        let missing = (n - t - 1) * (l * (l - 1) / 2);
        equations + missing < l * (k * (n - w))
    }
}

fn bad_support(support: &[u16], size: usize, i: usize) -> bool
    requires { i < length support.now }
    ensures { Decides result (BadSupport size support.now i) }
{
    usize::from(support[i]) >= size || support[..i].contains(&support[i])
}

fn first_bad_support(support: &[u16], size: usize) -> Option<usize>
    ensures { FirstBad (BadSupport size support.now) (length support.now) result }
{
    (0..support.len()).find(|&i| bad_support(support, size, i))
}

fn first_bad_multiplier(multipliers: &[u16], size: usize) -> Option<usize>
    ensures { FirstBad (BadMultiplier size multipliers.now) (length multipliers.now) result }
{
    multipliers
        .iter()
        .position(|&b| b == 0 || usize::from(b) >= size)
}

// Refuses for the first fault of what is asked for, and for nothing else. The numbers and the two
// lists stay three parameters: the caller holds them apart, and a struct of two lent lists would be made at each call and
// taken apart in it, which is no plainer.
pub(crate) fn judge(
    asked: Parameters,
    support: &[u16],
    multipliers: &[u16],
) -> Result<(), PlanFault>
    ensures { Judged refusal_of (Fails asked support.now multipliers.now) (result_err result) }
{
    if asked.bad_shape(support, multipliers) {
        return Err(PlanFault::Shape);
    }
    if asked.bad_distance() {
        return Err(PlanFault::Distance);
    }
    if asked.bad_errors() {
        return Err(PlanFault::Errors);
    }
    if asked.bad_width() {
        return Err(PlanFault::Width);
    }
    if !asked.solvable() {
        return Err(PlanFault::Inequality);
    }
    if let Some(i) = first_bad_support(support, asked.size) {
        return Err(PlanFault::Support(i));
    }
    if let Some(i) = first_bad_multiplier(multipliers, asked.size) {
        return Err(PlanFault::Multiplier(i));
    }
    Ok(())
}
