// Interpolation in Newton's form: divided differences in place of the values, then the value of
// the form at any point.
ghost use Rattle.std.specs.Prelude.{◌≡◌, ◌<◌, length};
ghost use Rattle.poly.specs.Arithmetic.{slope_of, nest_of};
ghost use Rattle.poly.specs.Newton.{sweep_of, coefficients_of, nested_of};
ghost use Rattle.poly.specs.Interpolation.{OneThrough};

use crate::arithmetic::{difference, member, quotient};
use field::{Field, multiply_add};

// The slope from the point (x0, y0) to the point (x, y).
fn slope<F: Field>(field: &F, x0: u16, y0: u16, x: u16, y: u16) -> u16
    ensures { result ≡ slope_of (F.meaning field.now) x0 y0 x y }
{
    let rise = difference(field, y, y0);
    let run = difference(field, x, x0);
    quotient(field, rise, run)
}

// Against point j: each later value less value j, divided by the difference of the points.
fn sweep<F: Field>(field: &F, points: &[u16], values: &mut [u16], j: usize)
    requires { j < length values.old }
    ensures { values.new ≡ sweep_of (F.meaning field.now) points.now j values.old }
{
    let first = values[j];
    let origin = member(points, j);
    // By index: a place counts in both lists, of which the points may be the shorter.
    for i in j + 1..values.len() {
        values[i] = slope(field, origin, first, member(points, i), values[i]);
    }
}

// Puts the coefficients of Newton's form in place of the values at the points.
pub fn divided_differences<F: Field>(field: &F, points: &[u16], values: &mut [u16])
    ensures { values.new ≡ coefficients_of (F.meaning field.now) points.now values.old }
{
    // By index: each turn changes all values after its own, and needs no element but the place.
    for j in 0..values.len() {
        sweep(field, points, values, j);
    }
}

// The value at z of c + (x − x0)·g, where v is that of g.
fn nest<F: Field>(field: &F, x0: u16, c: u16, z: u16, v: u16) -> u16
    ensures { result ≡ nest_of (F.meaning field.now) x0 c z v }
{
    let factor = difference(field, z, x0);
    multiply_add(field, c, factor, v)
}

// The value at z of Newton's form with these coefficients at these points, from the last one in.
pub fn newton_value<F: Field>(field: &F, points: &[u16], coefficients: &[u16], z: u16) -> u16
    ensures { result ≡ nested_of (F.meaning field.now) points.now coefficients.now z }
{
    let mut v = 0;
    for (i, &c) in coefficients.iter().enumerate().rev() {
        v = nest(field, member(points, i), c, z, v);
    }
    v
}

// Exactly one polynomial of degree below m has given values at m distinct points, and Newton's form
// gives its value everywhere. It computes nothing: its promise is the theorem.
pub fn one_polynomial<F: Field>(field: &F)
    ensures { OneThrough (F.meaning field.now) }
{}
