// The numbers that follow from those that a plan holds, and its two lists of field elements.
ghost use Rattle.std.specs.Prelude.{◌≡◌, ◌-◌, ◌*◌, take};
ghost use Rattle.plan.specs.Numbers.{degree_of, bound_of};

use crate::Plan;

impl Plan {
    // The greatest degree of a message polynomial.
    pub fn degree(&self) -> usize
        ensures { result ≡ degree_of self.now.n self.now.t }
    {
        self.dimension() - 1
    }

    // The dimension of the code, which is how many letters the content of a word has.
    pub fn dimension(&self) -> usize
        ensures { result ≡ self.now.n - self.now.t }
    {
        self.n - self.t
    }

    // The bound of the weighted degree of an interpolation polynomial.
    pub fn bound(&self) -> usize
        ensures { result ≡ bound_of self.now.n self.now.w self.now.k }
    {
        self.k * (self.n - self.w)
    }

    // Room for every word that one decoding can list: an interpolation polynomial has fewer than
    // l roots, and each is a word of n letters.
    pub fn list_length(&self) -> usize
        ensures { result ≡ (self.now.l - 1) * self.now.n }
    {
        (self.l - 1) * self.n
    }

    pub fn support(&self) -> &[u16]
        ensures { result.now ≡ take self.now.n self.now.support }
    {
        &self.support[..self.n]
    }

    pub fn multipliers(&self) -> &[u16]
        ensures { result.now ≡ take self.now.n self.now.multipliers }
    {
        &self.multipliers[..self.n]
    }
}
