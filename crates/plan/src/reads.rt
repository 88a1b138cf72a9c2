// The numbers that a plan holds. They are read only: no call changes one of them alone.
ghost use Rattle.std.specs.Prelude.{◌≡◌};
ghost use Rattle.plan.specs.Plans.{numbers_of};

use crate::{Parameters, Plan};

impl Plan {
    pub fn parameters(&self) -> Parameters
        ensures { result ≡ numbers_of self.now }
    {
        Parameters {
            size: usize::from(self.size),
            n: self.n,
            t: self.t,
            w: self.w,
            k: self.k,
            l: self.l,
        }
    }

    pub fn size(&self) -> u16
        ensures { result ≡ self.now.size }
    {
        self.size
    }

    pub fn n(&self) -> usize
        ensures { result ≡ self.now.n }
    {
        self.n
    }

    pub fn t(&self) -> usize
        ensures { result ≡ self.now.t }
    {
        self.t
    }

    pub fn w(&self) -> usize
        ensures { result ≡ self.now.w }
    {
        self.w
    }

    pub fn k(&self) -> usize
        ensures { result ≡ self.now.k }
    {
        self.k
    }

    pub fn l(&self) -> usize
        ensures { result ≡ self.now.l }
    {
        self.l
    }
}
