// Substitution of a polynomial for y, and why one that agrees with enough points is found. Each function computes
// nothing: its promise is a theorem.
ghost use Rattle.algebra.specs.CompletenessTheorems.{OrderOfSubstitution, DegreeOfSubstitution, Complete};

// Substitution of f carries the multiplicity at a point of f to the order there.
pub fn order_of_substitution()
    ensures { OrderOfSubstitution }
{}

// The weighted degree bounds the degree after substitution.
pub fn degree_of_substitution()
    ensures { DegreeOfSubstitution }
{}

// A polynomial that agrees enough with the distinct points at which Q vanishes is a root of Q.
pub fn complete()
    ensures { Complete }
{}
