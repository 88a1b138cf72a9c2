// The method as a whole: from the powers of y through the conditions of each place.
ghost use Rattle.std.specs.Prelude.{◌≡◌, ◌-◌, ◌<◌, [], is_some, slice_index_or};
ghost use Rattle.std.specs.Option.{unwrap_or};
ghost use Rattle.interpolation.specs.Bases.{rows_of, degrees_of};
ghost use Rattle.interpolation.specs.Rows.{start_rows, start_degrees};
ghost use Rattle.interpolation.specs.Runs.{ColumnMet, PlaceMet, Interpolated, Interpolant, NoneBelow};

use crate::basis::{Basis, start};
use crate::conditions::step;
use crate::pivots::pivot;
use crate::places::Place;
use bivariate::{Bounds, Condition, Polynomial, ROWS};
use field::Field;

// The conditions of a place at the power u of y, for the powers of x below count.
#[tactic(auto, using(crate::proofs::LiftedRun::column_none, crate::proofs::LiftedRun::column_more))]
fn meet_column<F: Field>(
    field: &F,
    basis: &mut Basis,
    bounds: Bounds,
    place: Place,
    u: usize,
    count: usize,
)
    ensures { ColumnMet (F.meaning field.now) place.abscissa place.ordinate u count bounds.l bounds.bound bounds.weight (rows_of basis.old) (degrees_of basis.old) (rows_of basis.new) (degrees_of basis.new) }
{
    for r in 0..count {
        let condition = Condition {
            a: place.abscissa,
            b: place.ordinate,
            u,
            r,
        };
        step(field, basis, bounds, condition);
    }
}

// How many conditions a place has at y^u: those of x^r y^u with u + r below the multiplicity.
fn powers_of_x(multiplicity: usize, u: usize) -> usize
    requires { u < multiplicity }
    ensures { result ≡ multiplicity - u }
{
    multiplicity - u
}

// The conditions of one place: those of x^r y^u with u + r below the multiplicity.
#[tactic(auto, using(crate::proofs::LiftedRun::columns_none, crate::proofs::LiftedRun::columns_more))]
fn meet_place<F: Field>(field: &F, basis: &mut Basis, bounds: Bounds, place: Place)
    ensures { PlaceMet (F.meaning field.now) place bounds.l bounds.bound bounds.weight (rows_of basis.old) (degrees_of basis.old) (rows_of basis.new) (degrees_of basis.new) }
{
    for u in 0..place.multiplicity {
        let count = powers_of_x(place.multiplicity, u);
        meet_column(field, basis, bounds, place, u, count);
    }
}

// Leads the powers of y through the conditions of the places, where the basis stands.
#[tactic(auto, using(crate::proofs::LiftedRun::reached_none))]
fn meet_places<F: Field>(field: &F, basis: &mut Basis, bounds: Bounds, places: &[Place])
    requires rows { rows_of basis.old ≡ start_rows }
    requires degrees { degrees_of basis.old ≡ start_degrees bounds.weight }
    ensures { Interpolated (F.meaning field.now) places.now bounds.l bounds.bound bounds.weight (rows_of basis.new) (degrees_of basis.new) }
{
    for place in places {
        meet_place(field, basis, bounds, *place);
    }
}

// The powers of y led through the conditions of the places. After that each row below l whose degree is
// below the bound vanishes at each place with its multiplicity.
#[tactic(auto, using(crate::proofs::BasisLists::start_rows_are, crate::proofs::BasisLists::start_degrees_are))]
pub fn interpolate<F: Field>(field: &F, places: &[Place], bounds: Bounds) -> Basis
    ensures { Interpolated (F.meaning field.now) places.now bounds.l bounds.bound bounds.weight (rows_of result) (degrees_of result) }
{
    let mut basis = start(bounds.weight);
    meet_places(field, &mut basis, bounds, places);
    basis
}

// The polynomial of row p.
#[tactic(auto, using(crate::proofs::BasisLists::row_read))]
fn polynomial_at(basis: &Basis, p: usize) -> Polynomial
    requires { p < 8 }
    ensures { result ≡ slice_index_or (rows_of basis.now) p [] }
{
    basis[p].polynomial
}

// The polynomial of least weighted degree that vanishes at each place with its multiplicity, among those within
// the bounds, where there is one.
#[tactic(auto, using(crate::proofs::LeastRow::row_found, crate::proofs::Scanning::found_inside, crate::proofs::BasisLists::start_rows_are, crate::proofs::BasisLists::start_degrees_are))]
pub fn interpolant<F: Field>(field: &F, places: &[Place], bounds: Bounds) -> Option<Polynomial>
    ensures found { Interpolant (F.meaning field.now) places.now bounds.l bounds.bound bounds.weight (unwrap_or result []) (is_some result) }
    ensures none { NoneBelow (F.meaning field.now) places.now bounds.l bounds.bound bounds.weight (is_some result) }
{
    // The basis is led where it stands: a basis that `interpolate` hands out is copied twice, and of a few places that is most
    // of the work.
    let mut basis = start(bounds.weight);
    meet_places(field, &mut basis, bounds, places);
    let p = pivot(&basis, &[1; ROWS], bounds)?;
    Some(polynomial_at(&basis, p))
}
