//! Tables by 8 sets of signs.

ghost use Rattle.std.specs.Prelude.{◌≡◌};
ghost use Rattle.sk_sign.specs.Tables.{bits_of, signs_at, sign_entry, truth_entry};

use crate::sign::Sign;
use sk_lattice::AbsBool;

/// An operation on two sets of signs, row by the first and column by the second: 1 for negative, 2 for
/// zero and 4 for positive; of truth values 1 for true and 2 for false.
pub type Grid = [[u8; 8]; 8];

/// The number of a set of signs, its place in a grid.
fn bits(signs: Sign) -> usize
    ensures { result ≡ bits_of signs }
{
    usize::from(signs.negative) + 2 * usize::from(signs.zero) + 4 * usize::from(signs.positive)
}

/// The set of signs with a number.
fn signs(bits: u8) -> Sign
    ensures { result ≡ signs_at bits }
{
    Sign {
        negative: bits & 1 != 0,
        zero: bits & 2 != 0,
        positive: bits & 4 != 0,
    }
}

/// The signs at the place of two sets.
pub(crate) fn look_up(grid: &Grid, a: Sign, b: Sign) -> Sign
    ensures { result ≡ sign_entry grid.now a b }
{
    signs(grid[bits(a)][bits(b)])
}

/// The truth values at the place of two sets.
pub(crate) fn look_up_truth(grid: &Grid, a: Sign, b: Sign) -> AbsBool
    ensures { result ≡ truth_entry grid.now a b }
{
    let entry = grid[bits(a)][bits(b)];
    AbsBool {
        has_true: entry & 1 != 0,
        has_false: entry & 2 != 0,
    }
}
