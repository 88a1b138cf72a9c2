// Whether a word is in the code: exactly if its content extends to it.
ghost use Rattle.std.specs.Prelude.{◌≡◌, take, IfOk, None, Decides};
ghost use Rattle.std.specs.Result.{result_err};
ghost use Rattle.fault.specs.First.{First, Judged};
ghost use Rattle.code.specs.Codes.{InCode};
ghost use Rattle.code.specs.Faults.{refusal_of, CheckFails};

use crate::CodeFault;
use crate::plan_code::PlanCode;
use field::Field;
use plan::{MAX_N, Plan};

impl<'a, F: Field> PlanCode<'a, F> {
    // All n places are compared: the first n - t agree by themselves, and cost little.
    fn agrees(&self, extended: &[u16; MAX_N], word: &[u16]) -> bool
        ensures { Decides result (take self.now.plan.now.n extended.now ≡ word.now) }
    {
        &extended[..self.plan.n()] == word
    }

    fn is_member(&self, word: &[u16]) -> bool
        requires { First refusal_of (CheckFails self.now.plan.now (F.meaning self.now.field.now) word.now) None }
        ensures { Decides result (InCode self.now.plan.now (F.meaning self.now.field.now) word.now) }
    {
        let extended = self.extend(&word[..self.plan.dimension()]);
        self.agrees(&extended, word)
    }

    // Refuses what is not n letters of the plan's field.
    fn read_word(&self, word: &[u16]) -> Result<(), CodeFault>
        ensures { Judged refusal_of (CheckFails self.now.plan.now (F.meaning self.now.field.now) word.now) (result_err result) }
    {
        self.read(word, self.plan.n())
    }

    fn check(&self, word: &[u16]) -> Result<bool, CodeFault>
        ensures judged { Judged refusal_of (CheckFails self.now.plan.now (F.meaning self.now.field.now) word.now) (result_err result) }
        ensures decided { IfOk result (λ b. Decides b (InCode self.now.plan.now (F.meaning self.now.field.now) word.now)) }
    {
        self.read_word(word)?;
        Ok(self.is_member(word))
    }
}

// Whether the word is in the code of the plan over the field.
pub fn check<F: Field>(plan: &Plan, field: &F, word: &[u16]) -> Result<bool, CodeFault>
    ensures judged { Judged refusal_of (CheckFails plan.now (F.meaning field.now) word.now) (result_err result) }
    ensures decided { IfOk result (λ b. Decides b (InCode plan.now (F.meaning field.now) word.now)) }
{
    PlanCode::new(plan, field)?.check(word)
}
