// How a content is extended to a word, one text for checking and for writing: the letters of the
// content, each over its multiplier, are the values of the polynomial at the first places, so that
// Newton's form gives its values at the others.
ghost use Rattle.std.specs.Prelude.{◌≡◌, ◌-◌, ◌<◌, ◌≤◌, length, take};
ghost use Rattle.field.specs.Made.{made};
ghost use Rattle.code.specs.Codes.{support_of, multipliers_of, Letters};
ghost use Rattle.code.specs.Extension.{scaled_of, letter_at, Extends};

use crate::plan_code::PlanCode;
use field::Field;
use plan::MAX_N;
use poly::{divided_differences, newton_value, quotient};

impl<'a, F: Field> PlanCode<'a, F> {
    // The values of the polynomial at the places of the content.
    #[tactic(auto, using(crate::proofs::Filling::scaling_none, crate::proofs::Filling::scaling_more, crate::proofs::Filling::scaling_all))]
    fn scale(&self, content: &[u16], values: &mut [u16])
        requires { (length values.old ≡ length content.now) × (length content.now ≤ self.now.plan.now.n) }
        ensures { values.new ≡ scaled_of (F.meaning self.now.field.now) (multipliers_of self.now.plan.now) content.now }
    {
        let multipliers = self.plan.multipliers();
        for (i, value) in values.iter_mut().enumerate() {
            *value = quotient(self.field, content[i], multipliers[i]);
        }
    }

    // What stands at place i of the extended content, given the coefficients of Newton's form.
    #[tactic(auto, using(crate::proofs::Places::within, crate::proofs::Places::after))]
    fn letter_at(&self, content: &[u16], coefficients: &[u16], i: usize) -> u16
        requires { i < self.now.plan.now.n }
        ensures { result ≡ letter_at (F.meaning self.now.field.now) (support_of self.now.plan.now) (multipliers_of self.now.plan.now) content.now coefficients.now i }
    {
        if i < content.len() {
            return content[i];
        }
        let support = self.plan.support();
        let multipliers = self.plan.multipliers();
        let value = newton_value(self.field, support, coefficients, support[i]);
        self.field.product(multipliers[i], value)
    }

    // The whole of the extended content: the letters of the content are put down again rather than
    // copied apart, so that one loop writes every place.
    #[tactic(auto, using(crate::proofs::Filling::filling_none, crate::proofs::Filling::filling_more, crate::proofs::Filling::filling_all))]
    fn fill_in(&self, content: &[u16], coefficients: &[u16], word: &mut [u16])
        requires { length word.old ≡ self.now.plan.now.n }
        ensures { word.new ≡ made self.now.plan.now.n (letter_at (F.meaning self.now.field.now) (support_of self.now.plan.now) (multipliers_of self.now.plan.now) content.now coefficients.now) }
    {
        for (i, letter) in word.iter_mut().enumerate() {
            *letter = self.letter_at(content, coefficients, i);
        }
    }

    // The one list that begins with the content and has the form of the code, in the first n places.
    pub(crate) fn extend(&self, content: &[u16]) -> [u16; MAX_N]
        requires { (length content.now ≡ self.now.plan.now.n - self.now.plan.now.t) × (Letters (F.meaning self.now.field.now) content.now) }
        ensures { Extends self.now.plan.now (F.meaning self.now.field.now) content.now (take self.now.plan.now.n result) }
    {
        let mut values = [0; MAX_N];
        let mut word = [0; MAX_N];
        let coefficients = &mut values[..content.len()];
        self.scale(content, coefficients);
        divided_differences(self.field, self.plan.support(), coefficients);
        let n = self.plan.n();
        self.fill_in(content, coefficients, &mut word[..n]);
        word
    }
}
