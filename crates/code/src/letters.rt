// Reading a list as letters: what is refused before anything is worked out, in the order of the
// faults, so that the first one is named.
ghost use Rattle.std.specs.Prelude.{◌≢◌, length, Decides};
ghost use Rattle.std.specs.Result.{result_err};
ghost use Rattle.fault.specs.First.{Judged};
ghost use Rattle.plan.specs.Checks.{FirstBad};
ghost use Rattle.code.specs.Codes.{Letters};
ghost use Rattle.code.specs.Faults.{refusal_of, NoLetter, ReadFails};

use crate::CodeFault;
use crate::plan_code::PlanCode;
use field::{Field, is_letter};

fn other_length(letters: &[u16], long: usize) -> bool
    ensures { Decides result (length letters.now ≢ long) }
{
    letters.len() != long
}

// The first place at which no letter stands.
fn first_no_letter<F: Field>(field: &F, letters: &[u16]) -> Option<usize>
    ensures { FirstBad (NoLetter (F.meaning field.now) letters.now) (length letters.now) result }
{
    letters.iter().position(|&letter| !is_letter(field, letter))
}

pub(crate) fn are_letters<F: Field>(field: &F, letters: &[u16]) -> bool
    ensures { Decides result (Letters (F.meaning field.now) letters.now) }
{
    first_no_letter(field, letters).is_none()
}

impl<'a, F: Field> PlanCode<'a, F> {
    // Refuses what is not the given number of letters, and nothing else.
    #[tactic(auto, using(crate::proofs::Reading::read_all))]
    pub(crate) fn read(&self, letters: &[u16], long: usize) -> Result<(), CodeFault>
        ensures { Judged refusal_of (ReadFails self.now.plan.now (F.meaning self.now.field.now) long letters.now) (result_err result) }
    {
        if other_length(letters, long) {
            return Err(CodeFault::Length);
        }
        match first_no_letter(self.field, letters) {
            Some(i) => Err(CodeFault::Letter(i)),
            None => Ok(()),
        }
    }
}
