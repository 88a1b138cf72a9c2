// From the roots of an interpolation polynomial to words: each root has a word, and those near the word heard are kept.
ghost use Rattle.std.specs.Prelude.{◌≡◌, ◌-◌, ◌<◌, ◌≤◌, not, ◌&&◌, ◌==◌, filter, length, take, Decides};
ghost use Rattle.std.specs.List.{zip};
ghost use Rattle.arrayvec.specs.ArrayVec.{array_vec_len};
ghost use Rattle.code.specs.Decoding.{letter_of, evaluated_of, Near, Kept};

use crate::letters::are_letters;
use crate::plan_code::PlanCode;
use field::Field;
use poly::value;
use roots::{Roots, WORD_LENGTH, Word};

// The number of places where two words differ.
fn distance(a: &[u16], b: &[u16]) -> usize
    ensures { result ≡ length (filter (λ p. not (p.0 == p.1)) (zip a.now b.now)) }
{
    a.iter().zip(b).filter(|&(x, y)| *x != *y).count()
}

// A function of its own, as the next one, so that a wrong operator is refused here and not where words are kept.
fn is_close(distance: usize, errors: usize) -> bool
    ensures { Decides result (distance ≤ errors) }
{
    distance <= errors
}

// The letters are tested too: over a field with fewer letters than elements a root need not give a word.
fn is_accepted(letters: bool, close: bool) -> bool
    ensures { result ≡ (letters && close) }
{
    letters && close
}

impl<'a, F: Field> PlanCode<'a, F> {
    // The letter of the polynomial at place i.
    fn letter(&self, f: &[u16], i: usize) -> u16
        requires { i < self.now.plan.now.n }
        ensures { result ≡ letter_of self.now.plan.now (F.meaning self.now.field.now) f.now i }
    {
        let support = self.plan.support();
        let multipliers = self.plan.multipliers();
        self.field
            .product(multipliers[i], value(self.field, f, support[i]))
    }

    // The word of the polynomial, in the first n places.
    #[tactic(auto, using(crate::proofs::Evaluating::evaluating_none, crate::proofs::Evaluating::evaluating_more, crate::proofs::Evaluating::evaluating_all))]
    fn evaluated(&self, f: &[u16]) -> Word
        ensures { result ≡ evaluated_of self.now.plan.now (F.meaning self.now.field.now) f.now }
    {
        let mut word = [0; WORD_LENGTH];
        for (i, letter) in word[..self.plan.n()].iter_mut().enumerate() {
            *letter = self.letter(f, i);
        }
        word
    }

    // The word of a candidate, whose coefficients are the first n − t numbers of the array.
    fn candidate(&self, f: &Word) -> Word
        ensures { result ≡ evaluated_of self.now.plan.now (F.meaning self.now.field.now) (take (self.now.plan.now.n - self.now.plan.now.t) f.now) }
    {
        self.evaluated(&f[..self.plan.dimension()])
    }

    // Whether the array holds a word of letters within the plan's errors of the word heard.
    fn is_near(&self, heard: &[u16], array: &Word) -> bool
        ensures { Decides result (Near self.now.plan.now (F.meaning self.now.field.now) heard.now array.now) }
    {
        let word = &array[..self.plan.n()];
        let close = is_close(distance(word, heard), self.plan.w());
        is_accepted(are_letters(self.field, word), close)
    }

    // The words of the candidates that are near the word heard.
    #[tactic(auto, using(crate::proofs::Keeping::keeping_none, crate::proofs::Keeping::keeping_room, crate::proofs::Keeping::keeping_more, crate::proofs::Keeping::keeping_less, crate::proofs::Keeping::keeping_all))]
    pub(crate) fn near_words(&self, heard: &[u16], candidates: &Roots) -> Roots
        ensures { Kept self.now.plan.now (F.meaning self.now.field.now) heard.now candidates.now.items (array_vec_len candidates.now) result.items }
    {
        let mut kept = Roots::new();
        for f in candidates.as_slice() {
            let word = self.candidate(f);
            if self.is_near(heard, &word) {
                kept.push(word);
            }
        }
        kept
    }
}
