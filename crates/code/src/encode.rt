// Writing the word that a content begins: everything is decided before the place is touched, so
// that a refusal leaves it as it was.
ghost use Rattle.std.specs.Prelude.{◌≡◌, ◌≤◌, ◌++◌, length, take, drop, IfOk, Decides, MatchResult};
ghost use Rattle.std.specs.Result.{result_err};
ghost use Rattle.fault.specs.First.{Judged};
ghost use Rattle.code.specs.Codes.{Letters, WordOf, Written};
ghost use Rattle.code.specs.Extension.{last_fault};
ghost use Rattle.code.specs.Faults.{refusal_of, WriteFails};

use crate::CodeFault;
use crate::letters::are_letters;
use crate::plan_code::PlanCode;
use field::Field;
use plan::{MAX_N, Plan};

// Whether there is a word comes before whether it fits, so that too short a place hides no fault
// of the content.
fn judge_last(whole: bool, room: usize, n: usize) -> Result<(), CodeFault>
    ensures { result_err result ≡ last_fault whole room n }
{
    if !whole {
        return Err(CodeFault::Content);
    }
    if room < n {
        return Err(CodeFault::Room);
    }
    Ok(())
}

impl<'a, F: Field> PlanCode<'a, F> {
    // Over a field with fewer letters than elements, what a content is extended to need not be a word.
    fn is_word(&self, extended: &[u16; MAX_N]) -> bool
        ensures { Decides result (Letters (F.meaning self.now.field.now) (take self.now.plan.now.n extended.now)) }
    {
        are_letters(self.field, &extended[..self.plan.n()])
    }

    // The word that begins with the content, in the first n places, if a place with this room can take it.
    #[tactic(auto, using(crate::proofs::Writing::content_refused, crate::proofs::Writing::content_read, crate::proofs::Writing::last_judged, crate::proofs::Writing::last_word))]
    fn word_of(&self, content: &[u16], room: usize) -> Result<[u16; MAX_N], CodeFault>
        ensures judged { Judged refusal_of (WriteFails self.now.plan.now (F.meaning self.now.field.now) content.now room) (result_err result) }
        ensures word { IfOk result (λ w. (self.now.plan.now.n ≤ room) × WordOf self.now.plan.now (F.meaning self.now.field.now) content.now (take self.now.plan.now.n w)) }
    {
        self.read(content, self.plan.dimension())?;
        let extended = self.extend(content);
        judge_last(self.is_word(&extended), room, self.plan.n())?;
        Ok(extended)
    }

    // Puts the word at the start of the place.
    fn put_down(&self, word: &[u16; MAX_N], place: &mut [u16])
        requires { self.now.plan.now.n ≤ length place.old }
        ensures { place.new ≡ take self.now.plan.now.n word.now ++ drop self.now.plan.now.n place.old }
    {
        let n = self.plan.n();
        place[..n].copy_from_slice(&word[..n]);
    }

    #[tactic(auto, using(crate::proofs::Writing::put))]
    fn write(&self, content: &[u16], place: &mut [u16]) -> Result<(), CodeFault>
        ensures judged { Judged refusal_of (WriteFails self.now.plan.now (F.meaning self.now.field.now) content.now (length place.old)) (result_err result) }
        ensures written { MatchResult result (λ _. Written self.now.plan.now (F.meaning self.now.field.now) content.now place.old place.new) (λ _. place.new ≡ place.old) }
    {
        let word = self.word_of(content, place.len())?;
        self.put_down(&word, place);
        Ok(())
    }
}

// Puts the one word of the code that begins with the content at the start of the place.
pub fn write<F: Field>(
    plan: &Plan,
    field: &F,
    content: &[u16],
    place: &mut [u16],
) -> Result<(), CodeFault>
    ensures judged { Judged refusal_of (WriteFails plan.now (F.meaning field.now) content.now (length place.old)) (result_err result) }
    ensures written { MatchResult result (λ _. Written plan.now (F.meaning field.now) content.now place.old place.new) (λ _. place.new ≡ place.old) }
{
    PlanCode::new(plan, field)?.write(content, place)
}
