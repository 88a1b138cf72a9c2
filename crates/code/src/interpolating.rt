// The polynomial in x and y that vanishes at the letters heard: at each element of the support, over its multiplier.
ghost use Rattle.std.specs.Prelude.{◌≡◌, ◌<◌, Bool, length};
ghost use Rattle.interpolation.specs.Runs.{Interpolant};
ghost use Rattle.code.specs.Decoding.{place_at, places_of};
ghost use Rattle.code.specs.Listing.{weight_of, width_of};

use crate::plan_code::PlanCode;
use arrayvec::ArrayVec;
use bivariate::{Bounds, Polynomial, zero_polynomial};
use field::Field;
use interpolation::{Place, interpolant};
use plan::MAX_N;
use poly::quotient;

impl<'a, F: Field> PlanCode<'a, F> {
    // The bounds of an interpolation polynomial, in which y weighs the greatest degree of a message polynomial.
    pub(crate) fn bounds(&self) -> Bounds
        ensures { (result.l ≡ self.now.plan.now.l) × (result.bound ≡ width_of self.now.plan.now) × (result.weight ≡ weight_of self.now.plan.now) }
    {
        Bounds {
            l: self.plan.l(),
            bound: self.plan.bound(),
            weight: self.plan.degree(),
        }
    }

    // The places of the word heard: each letter at its element of the support, over its multiplier.
    #[tactic(auto, using(crate::proofs::Pointing::pointed_none, crate::proofs::Pointing::pointed_room, crate::proofs::Pointing::pointed_more, crate::proofs::Pointing::pointed_all))]
    fn places(&self, heard: &[u16]) -> ArrayVec<Place, MAX_N>
        requires { length heard.now ≡ self.now.plan.now.n }
        ensures { result.items ≡ places_of self.now.plan.now (F.meaning self.now.field.now) heard.now }
    {
        let support = self.plan.support();
        let multipliers = self.plan.multipliers();
        let mut places = ArrayVec::new();
        // By index: a place is made of three lists, and a zip of zips, with its elements in nested pairs, is no plainer.
        for i in 0..heard.len() {
            places.push(Place {
                abscissa: support[i],
                ordinate: quotient(self.field, heard[i], multipliers[i]),
                multiplicity: self.plan.k(),
            });
        }
        places
    }

    // The interpolation polynomial of the word heard. That there is one follows from the plan's inequality, which is proved
    // for the caller: here 0 would stand in for one that is missing.
    pub(crate) fn interpolation(&self, heard: &[u16]) -> Polynomial
        requires { length heard.now ≡ self.now.plan.now.n }
        ensures { (b : Bool) × Interpolant (F.meaning self.now.field.now) (places_of self.now.plan.now (F.meaning self.now.field.now) heard.now) self.now.plan.now.l (width_of self.now.plan.now) (weight_of self.now.plan.now) result b }
    {
        let places = self.places(heard);
        interpolant(self.field, places.as_slice(), self.bounds()).unwrap_or(zero_polynomial())
    }
}
