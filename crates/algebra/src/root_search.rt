ghost use Rattle.algebra.specs.RootTheorems.{FewRoots, DivisionByX, DivisionEnds, RootStep, ConstantRoot, SearchFindsRoots};

// The theorem of few roots: a polynomial other than zero, of degree below l in y, has fewer than l distinct roots.
// It computes nothing: its promise is the theorem.
pub fn few_roots()
    ensures { FewRoots }
{}

// Division by x, where x divides the polynomial, keeps its roots, its bounds and its not being zero.
// It computes nothing: its promise is the theorem.
pub fn division_by_x()
    ensures { DivisionByX }
{}

// Fewer divisions by x than the bound of the degree in x lead to a constant term that is not zero.
// It computes nothing: its promise is the theorem.
pub fn division_ends()
    ensures { DivisionEnds }
{}

// The step of the search: a root's constant term γ is a zero of Q(0, y), and the rest of the root, divided by x, is a
// root of Q(x, γ + x·y). It computes nothing: its promise is the theorem.
pub fn root_step()
    ensures { RootStep }
{}

// A constant γ is a root exactly if all coefficients of Q(x, γ) are zero.
// It computes nothing: its promise is the theorem.
pub fn constant_root()
    ensures { ConstantRoot }
{}

// The search over all elements lists the roots of bounded degree, each once and nothing else, fewer than the bound of
// the degree in y. It computes nothing: its promise is the theorem.
pub fn search_finds_roots()
    ensures { SearchFindsRoots }
{}
