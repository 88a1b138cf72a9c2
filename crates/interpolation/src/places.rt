// Places: points of the plane, each with the multiplicity that is asked for there.

// A point (abscissa, ordinate) and a multiplicity.
#[derive(Clone, Copy, Debug, Default, PartialEq, Eq)]
pub struct Place {
    pub abscissa: u16,
    pub ordinate: u16,
    pub multiplicity: usize,
}
