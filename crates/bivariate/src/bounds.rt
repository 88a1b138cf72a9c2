// How polynomials in x and y lie in memory, and which of their coefficients are worked on.
ghost use Rattle.std.specs.Prelude.{◌≡◌, min};
ghost use Rattle.bivariate.specs.Combinations.{row_length};

// How many coefficients a row has.
pub const WIDTH: usize = 256;

// How many rows a polynomial has.
pub const ROWS: usize = 8;

// The coefficients of one power of y.
pub type Row = [u16; WIDTH];

// The coefficients of y^0 to y^7.
pub type Polynomial = [Row; ROWS];

// The rows below l, and in them what has a weighted degree below the bound, where x weighs 1.
#[derive(Clone, Copy, Debug, PartialEq, Eq)]
pub struct Bounds {
    pub l: usize,
    pub bound: usize,
    pub weight: usize,
}

impl Bounds {
    // How many rows of a polynomial are worked on.
    pub fn rows(self) -> usize
        ensures { result ≡ min self.l 8 }
    {
        self.l.min(ROWS)
    }

    // How many coefficients row c has.
    #[tactic(auto, using(crate::proofs::Writing::row_length_is))]
    pub fn row_length(self, c: usize) -> usize
        ensures { result ≡ row_length self.bound self.weight c }
    {
        self.bound
            .saturating_sub(c.saturating_mul(self.weight))
            .min(WIDTH)
    }
}
