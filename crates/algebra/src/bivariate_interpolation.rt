// Interpolation of polynomials in x and y by Koetter's method. Each function computes nothing: its promise is a theorem.
ghost use Rattle.algebra.specs.InterpolationTheorems.{ConditionsOrdered, ConditionsOfPlaces, StartSatisfies, StepKeeps, StepKeepsLeast, RowExists, RunInterpolates, LeastDegree, InterpolationExists};

// The conditions of places come in an order that the steps can follow.
pub fn interpolation_ordered()
    ensures { ConditionsOrdered }
{}

// There are m(m + 1)/2 conditions for each place of multiplicity m, and to meet them is to vanish there.
pub fn interpolation_conditions()
    ensures { ConditionsOfPlaces }
{}

// The powers of y satisfy the invariant before the first condition.
pub fn interpolation_starts()
    ensures { StartSatisfies }
{}

// A step keeps the invariant, for one condition more.
pub fn interpolation_keeps()
    ensures { StepKeeps }
{}

// A step keeps the degrees of the rows least.
pub fn interpolation_keeps_least()
    ensures { StepKeepsLeast }
{}

// Where the conditions are few enough, a live row is left, and every live row interpolates.
pub fn interpolation_ends()
    ensures { RowExists }
{}

// A run of steps over the conditions of places of one multiplicity finds a polynomial.
pub fn interpolation_runs()
    ensures { RunInterpolates }
{}

// The live row of least degree has the least weighted degree that a polynomial through the places can have.
pub fn interpolation_least()
    ensures { LeastDegree }
{}

// Where the conditions of places are few enough, there is a polynomial that interpolates, and one of least weighted degree.
pub fn interpolation_exists()
    ensures { InterpolationExists }
{}
