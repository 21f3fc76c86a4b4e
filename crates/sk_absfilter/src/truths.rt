//! Operations on sets of truth values.
ghost use Rattle.std.specs.Prelude.{◌≡◌, ◌&&◌, ◌||◌, not};
ghost use Rattle.sk_absfilter.specs.Truths.{both_truths, only_truth, truths_given, truths_of_pairs};

use sk_lattice::AbsBool;

/// One truth value alone.
pub(crate) fn only(truth: bool) -> AbsBool
    ensures { result ≡ only_truth truth }
{
    AbsBool {
        has_true: truth,
        has_false: !truth,
    }
}

/// Either truth value.
pub(crate) fn any_truth() -> AbsBool
    ensures { result ≡ both_truths }
{
    AbsBool {
        has_true: true,
        has_false: true,
    }
}

/// The negations of the truth values.
pub(crate) fn negations(a: AbsBool) -> AbsBool
    ensures { result ≡ truths_given not a }
{
    AbsBool {
        has_true: a.has_false,
        has_false: a.has_true,
    }
}

/// Whether both of a pair hold, for all pairs of two sets.
pub(crate) fn both(a: AbsBool, b: AbsBool) -> AbsBool
    ensures { result ≡ truths_of_pairs (λ x y. x && y) a b }
{
    AbsBool {
        has_true: a.has_true && b.has_true,
        has_false: a.has_false && !b.is_empty() || a.has_true && b.has_false,
    }
}

/// Whether one of a pair holds, for all pairs of two sets.
pub(crate) fn either(a: AbsBool, b: AbsBool) -> AbsBool
    ensures { result ≡ truths_of_pairs (λ x y. x || y) a b }
{
    AbsBool {
        has_true: a.has_true && !b.is_empty() || a.has_false && b.has_true,
        has_false: a.has_false && b.has_false,
    }
}
