//! The laws over the definitions, for the domains of the program.
use crate::solutions_are_analyses;
use sk_abswalk::{
    accepted_tables_are_sound, analysed_tables_are_accepted, verdicts_are_right,
    walks_are_monotone, walks_fit,
};
use sk_interval::Interval;
use sk_lattice::NumDom;
use sk_sign::Sign;
use sk_verify::read_tables_fit;

/// The laws of walks, of tables and of solutions over a domain.
fn laws<D: NumDom>() {
    walks_are_monotone::<D>();
    walks_fit::<D>();
    verdicts_are_right::<D>();
    accepted_tables_are_sound::<D>();
    read_tables_fit::<D>();
    analysed_tables_are_accepted::<D>();
    solutions_are_analyses::<D>();
}

#[test]
fn laws_hold_over_signs() {
    laws::<Sign>();
}

#[test]
fn laws_hold_over_intervals() {
    laws::<Interval>();
}
