// Polynomials in one variable: order of vanishing, and interpolation. Each function computes nothing: its promise is a theorem.
ghost use Rattle.algebra.specs.OneVariableTheorems.{ElementsAgree, OrdersAdd, OrderDivides, OrderCancels, ZeroByOrders, OneThroughPoints, DerivativeOfProduct};

// The numbers below the size of a lawful field are a field, with the same operations.
pub fn elements_agree()
    ensures { ElementsAgree }
{}

// Sums and multiples keep the order at a point, and orders add under products.
pub fn orders_add()
    ensures { OrdersAdd }
{}

// A polynomial that vanishes at a point is divided exactly by x less that point, which lowers the order by one.
pub fn order_divides()
    ensures { OrderDivides }
{}

// A factor that does not vanish at a point leaves the order there as it is.
pub fn order_cancels()
    ensures { OrderCancels }
{}

// A polynomial of degree below the sum of its orders at distinct points is zero.
pub fn zero_by_orders()
    ensures { ZeroByOrders }
{}

// Exactly one polynomial of degree below m goes through m points, and Newton's form gives its values.
pub fn one_through_points()
    ensures { OneThroughPoints }
{}

// The derivative, as the coefficient of the Taylor expansion, obeys the rule for products.
pub fn derivative_of_product()
    ensures { DerivativeOfProduct }
{}
