// The mathematics that the receiver rests on, proved once over abstract operations. No code runs here.
#![tactic(auto)]

pub mod agreement;
pub mod bivariate_interpolation;
pub mod lattice;
pub mod one_variable;
pub mod root_search;
