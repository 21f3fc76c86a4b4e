//! Laws of the solutions of constraints.
ghost use Rattle.sk_solve.specs.Solves.{LeastIsOne};

use sk_lattice::NumDom;

/// Over every domain a list of constraints has one least solution at most.
pub fn least_is_one<D: NumDom>()
    ensures { LeastIsOne D.domain }
{}
