// The console's state: the field chosen last and the plan made last, and what each command does to them.
ghost use Rattle.std.specs.Prelude.{◌≡◌, Some, None};
ghost use Rattle.std.specs.Option.{ok_or};
ghost use Rattle.console.specs.Kinds.{meaning_in};
ghost use Rattle.console.specs.States.{answer_of, Chosen, Planned, Checked, WrittenOut, ListedOut, OverField, with_field, plain, inverted};
ghost use Rattle.console.specs.declared.answer.Answer.TheVariants.{Sum, Negative, Product};
ghost use Rattle.console.specs.declared.answer.Trouble.TheVariants.{NoField};
ghost use Rattle.field.specs.Binary.{binary as binary_meaning};
ghost use Rattle.field.specs.Faults.{PrimeFails, BinaryFails};
ghost use Rattle.field.specs.Meaning.{sum_of, negative_of, product_of, inverse_of};
ghost use Rattle.field.specs.Modular.{modular};
ghost use Rattle.plan.specs.Plans.{Asked, starting_numbers, starting_support, starting_multipliers};

use crate::word::Word;
use crate::words::Words;
use crate::{Answer, AnyField, Trouble};
use code::{WORKSPACE, check, list, write};
use fault::Refusal;
use field::{BinaryField, Field, PrimeField};
use plan::{Parameters, Plan};

// The field chosen last, if one was, and the plan made last.
#[derive(Clone, Copy)]
pub struct Console {
    field: Option<AnyField>,
    plan: Plan,
}

// A refusal is an answer too.
fn answered(outcome: Result<Answer, Refusal>) -> Answer
    ensures { result ≡ answer_of outcome }
{
    match outcome {
        Ok(answer) => answer,
        Err(refusal) => Answer::Refused(refusal),
    }
}

// Whether the word is in the code of the plan over the field.
fn checked(plan: &Plan, field: &AnyField, word: &[u16]) -> Result<Answer, Refusal>
    ensures { Checked plan.now (meaning_in field.now) word.now (answer_of result) }
{
    Ok(Answer::Check(check(plan, field, word)?))
}

// The word of the code that begins with the content.
fn written(plan: &Plan, field: &AnyField, content: &[u16]) -> Result<Answer, Refusal>
    ensures { WrittenOut plan.now (meaning_in field.now) content.now (answer_of result) }
{
    let mut place = [0u16; 64];
    write(plan, field, content, &mut place)?;
    Ok(Answer::Write(Word::new(place, plan.n())))
}

// The words of the code near the word heard.
fn listed(plan: &Plan, field: &AnyField, heard: &[u16]) -> Result<Answer, Refusal>
    ensures { ListedOut plan.now (meaning_in field.now) heard.now (answer_of result) }
{
    let mut place = [0u16; 448];
    let mut workspace = [0u16; WORKSPACE];
    let listing = list(plan, field, heard, &mut place, &mut workspace)?;
    let words = Words::new(place, plan.n(), listing.words, listing.tested);
    Ok(Answer::List(words))
}

impl Console {
    // No field is chosen at first, and the plan is the starting plan.
    pub fn new() -> Console
        ensures { (result.field ≡ None) × (Asked starting_numbers starting_support starting_multipliers result.plan) }
    {
        Console {
            field: None,
            plan: Plan::starting(),
        }
    }

    // Chooses the field, and describes it.
    fn choose(&mut self, field: AnyField) -> Answer
        ensures { (result ≡ plain (meaning_in field)) × (self.new.field ≡ Some field) × (self.new.plan ≡ self.old.plan) }
    {
        self.field = Some(field);
        Answer::Field {
            size: field.size(),
            letters: field.letters(),
        }
    }

    // Chooses the field of p elements.
    pub fn choose_prime(&mut self, p: usize) -> Answer
        ensures { Chosen (PrimeFails p) (modular p) self.old result self.new }
    {
        match PrimeField::new(p) {
            Ok(field) => self.choose(AnyField::Prime(field)),
            Err(fault) => Answer::Refused(fault.into()),
        }
    }

    // Chooses the field of degree m, with all its elements or two of them as letters.
    pub fn choose_binary(&mut self, m: usize, all: bool) -> Answer
        ensures { Chosen (BinaryFails m) (binary_meaning m all) self.old result self.new }
    {
        match BinaryField::new(m, all) {
            Ok(field) => self.choose(AnyField::Binary(field)),
            Err(fault) => Answer::Refused(fault.into()),
        }
    }

    // The field chosen last.
    fn chosen(&self) -> Result<AnyField, Trouble>
        ensures { result ≡ ok_or self.now.field NoField }
    {
        self.field.ok_or(Trouble::NoField)
    }

    pub fn sum(&self, a: u16, b: u16) -> Result<Answer, Trouble>
        ensures { result ≡ with_field self.now.field (λ m. Sum (sum_of m a b)) }
    {
        let field = self.chosen()?;
        Ok(Answer::Sum(field.sum(a, b)))
    }

    pub fn negative(&self, a: u16) -> Result<Answer, Trouble>
        ensures { result ≡ with_field self.now.field (λ m. Negative (negative_of m a)) }
    {
        let field = self.chosen()?;
        Ok(Answer::Negative(field.negative(a)))
    }

    pub fn product(&self, a: u16, b: u16) -> Result<Answer, Trouble>
        ensures { result ≡ with_field self.now.field (λ m. Product (product_of m a b)) }
    {
        let field = self.chosen()?;
        Ok(Answer::Product(field.product(a, b)))
    }

    pub fn inverse(&self, a: u16) -> Result<Answer, Trouble>
        ensures { result ≡ with_field self.now.field (λ m. inverted (inverse_of m a)) }
    {
        let field = self.chosen()?;
        Ok(Answer::Inverse(field.inverse(a)))
    }

    // Makes the plan that is asked for, in the place of the one before.
    pub fn plan(&mut self, asked: Parameters, support: &[u16], multipliers: &[u16]) -> Answer
        ensures { Planned asked support.now multipliers.now self.old result self.new }
    {
        match self.plan.make(asked, support, multipliers) {
            Ok(()) => Answer::PlanMade,
            Err(fault) => Answer::Refused(fault.into()),
        }
    }

    // Whether the word is in the code of the plan over the field chosen.
    pub fn check(&self, word: &[u16]) -> Result<Answer, Trouble>
        ensures { OverField self.now.field (λ m. Checked self.now.plan m word.now) result }
    {
        let field = self.chosen()?;
        Ok(answered(checked(&self.plan, &field, word)))
    }

    // The word of the code that begins with the content.
    pub fn write(&self, content: &[u16]) -> Result<Answer, Trouble>
        ensures { OverField self.now.field (λ m. WrittenOut self.now.plan m content.now) result }
    {
        let field = self.chosen()?;
        Ok(answered(written(&self.plan, &field, content)))
    }

    // Every word of the code within the plan's errors of the word heard.
    pub fn list(&self, heard: &[u16]) -> Result<Answer, Trouble>
        ensures { OverField self.now.field (λ m. ListedOut self.now.plan m heard.now) result }
    {
        let field = self.chosen()?;
        Ok(answered(listed(&self.plan, &field, heard)))
    }
}
