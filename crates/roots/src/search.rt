// The search, one coefficient a level.
ghost use Rattle.std.specs.Prelude.{◌≡◌, ◌+◌, ◌^◌, ◌<◌, ◌≤◌, [], ◌∷◌, ◌++◌, length, take, slice_set};
ghost use Rattle.arrayvec.specs.ArrayVec.{array_vec_len};
ghost use Rattle.roots.specs.Search.{stripped_of, roots_of, zero_word};
ghost use Rattle.roots.specs.Found.{Finds};

use arrayvec::ArrayVec;
use bivariate::roots::{lower, starts_with_zeros, value_at_zero, vanishes_at};
use bivariate::shifts::shifted;
use bivariate::{Bounds, Polynomial};
use field::Field;

// How many coefficients a word has.
pub const WORD_LENGTH: usize = 64;

// How many roots are answered at most.
pub const MAX_ROOTS: usize = 7;

// Coefficients of a polynomial in x, lowest first.
pub type Word = [u16; WORD_LENGTH];

// The roots of an interpolation polynomial, which has fewer than eight.
pub type Roots = ArrayVec<Word, MAX_ROOTS>;

// Divides the polynomial by x as long as x divides it, at most as many times as the bound says.
#[tactic(auto, using(crate::proofs::Numbers::stripping_none, crate::proofs::Numbers::stripping_more, crate::proofs::Numbers::stripping_stop, crate::proofs::Numbers::stripping_all))]
fn strip(q: &mut Polynomial, bounds: Bounds)
    ensures { q.new ≡ stripped_of bounds.l bounds.bound q.old }
{
    for _i in 0..bounds.bound {
        if !starts_with_zeros(q, bounds) {
            return;
        }
        lower(q);
    }
}

// The word with g at a place. The coefficients chosen are a whole word beside their number: as a bounded vector they would have
// to be filled up with zeros at each root, which is no plainer.
fn with(word: &Word, place: usize, g: u16) -> Word
    ensures { result ≡ slice_set word.now place g }
{
    let mut result = *word;
    if place < WORD_LENGTH {
        result[place] = g;
    }
    result
}

// Puts the word after the others, where there is room.
#[tactic(auto, using(crate::proofs::Numbers::put_room, crate::proofs::Numbers::put_full))]
fn put(words: &mut Roots, word: Word)
    ensures { words.new.items ≡ take 7 (words.old.items ++ word ∷ []) }
{
    if !words.is_full() {
        words.push(word);
    }
}

// Puts the roots of q of degree at most the weight after those found, each after the coefficients chosen before it, as far
// as there is room. The polynomial is divided by x where it stands, so that a frame of the recursion holds one polynomial,
// the next. What is required keeps depth + 1 from wrapping, and holds at depth 0 for every degree.
#[tactic(auto, using(crate::proofs::Numbers::standing_none, crate::proofs::Numbers::standing_few, crate::proofs::Numbers::standing_all))]
fn descend<F: Field>(
    field: &F,
    q: &mut Polynomial,
    bounds: Bounds,
    chosen: &Word,
    depth: usize,
    found: &mut Roots,
)
    requires depth { depth + bounds.weight < 2 ^ 64 }
    requires few { array_vec_len found.old ≤ 7 }
    ensures found { found.new.items ≡ take 7 (found.old.items ++ roots_of (F.meaning field.now) bounds.l bounds.bound bounds.weight chosen.now depth q.old) }
    ensures divided { q.new ≡ stripped_of bounds.l bounds.bound q.old }
{
    strip(q, bounds);
    for g in 0..field.size() {
        if bounds.weight == 0 {
            if vanishes_at(field, q, bounds, g) {
                put(found, with(chosen, depth, g));
            }
        } else if value_at_zero(field, q, bounds, g) == 0 {
            let mut next = shifted(field, q, bounds, g);
            let rest = Bounds {
                weight: bounds.weight - 1,
                ..bounds
            };
            descend(
                field,
                &mut next,
                rest,
                &with(chosen, depth, g),
                depth + 1,
                found,
            );
        }
    }
}

// The roots with no coefficient chosen before.
fn start<F: Field>(field: &F, q: &Polynomial, bounds: Bounds) -> Roots
    ensures { result.items ≡ take 7 (roots_of (F.meaning field.now) bounds.l bounds.bound bounds.weight zero_word 0 q.now) }
{
    let mut divided = *q;
    let mut found = Roots::new();
    let none = [0; WORD_LENGTH];
    descend(field, &mut divided, bounds, &none, 0, &mut found);
    found
}

// The roots f(x) of q in y of degree at most the weight, as words of coefficients, lowest first. Q has rows and coefficients
// within the bounds; where there are more roots than words, the first are answered.
#[tactic(auto, using(crate::proofs::Finding::found_all))]
pub fn roots<F: Field>(field: &F, q: &Polynomial, bounds: Bounds) -> Roots
    ensures computed { result.items ≡ take 7 (roots_of (F.meaning field.now) bounds.l bounds.bound bounds.weight zero_word 0 q.now) }
    ensures found { Finds (F.meaning field.now) q.now bounds.l bounds.bound bounds.weight result.items (array_vec_len result) }
{
    start(field, q, bounds)
}
