ghost use Rattle.algebra.specs.LatticeTheorems.{LatticeByMultiplicity};

// The theorem of the lattice: for points with distinct abscissae and a polynomial V through them, a polynomial of
// bounded degrees is a combination of the generators exactly if it vanishes at each point with the multiplicity.
// It computes nothing: its promise is the theorem.
pub fn lattice_by_multiplicity()
    ensures { LatticeByMultiplicity }
{}
