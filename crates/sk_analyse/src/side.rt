//! A side of a key in a round.
ghost use Rattle.std.specs.Prelude.{◌≡◌, true, IsTrue, IfOk, Some, None};
ghost use Rattle.std.specs.Option.{option_copied};
ghost use Rattle.sk_deriv.specs.Moves.{Setting};
ghost use Rattle.sk_lattice.specs.Order.{tuples_fit};
ghost use Rattle.sk_lattice.specs.Thresholds.{IsThresholds};
ghost use Rattle.sk_absfilter.specs.Laws.{outcome_leq};
ghost use Rattle.sk_table.specs.declared.triple.Cover.{Cover};
ghost use Rattle.sk_rounds.specs.Rounds.{stretch, raised, side_join};
ghost use Rattle.sk_abswalk.specs.Reading.{walks_of};
ghost use Rattle.sk_analyse.specs.Sides.{sides_fit};

use sk_base::NoMemory;
use sk_lattice::{AbsTuple, NumDom, Thresholds};
use std::alloc::Global;

/// Whether a side lies below another one; none lies below all.
pub(crate) fn lies_below<D: NumDom>(side: Option<&AbsTuple<D>>, other: Option<&AbsTuple<D>>) -> bool
    ensures { result ≡ outcome_leq D.domain (option_copied side.entry) (option_copied other.entry) }
{
    match (side, other) {
        (None, _) => true,
        (Some(_), None) => false,
        (Some(tuple), Some(other)) => tuple.leq(other),
    }
}

/// An equal side.
pub(crate) fn copy_side<D: NumDom>(
    alloc: Global,
    side: Option<&AbsTuple<D>>,
) -> Result<Option<AbsTuple<D>>, NoMemory>
    ensures { IfOk result (λ copy. copy ≡ option_copied side.entry) }
{
    Ok(match side {
        Some(tuple) => Some(tuple.copy(alloc)?),
        None => None,
    })
}

/// The join of two tuples of the same sorts up to round 3 and on finite domains, and else the widening of the old one
/// by it.
fn stretch<D: NumDom>(
    alloc: Global,
    marks: &Thresholds,
    round: u64,
    old: &AbsTuple<D>,
    new: &AbsTuple<D>,
) -> Result<AbsTuple<D>, NoMemory>
    requires { IsTrue (tuples_fit old.now new.now) }
    ensures { IfOk result (λ tuple. (s : Setting) (covers : _) → tuple ≡ stretch (walks_of D.domain D.FINITE marks.now s covers) round old.now new.now) }
{
    let joined = old.join(alloc, new)?;
    if round <= 3 || D::FINITE {
        Ok(joined)
    } else {
        old.widen(alloc, &joined, marks)
    }
}

/// What becomes of a side in a round where this is demanded of it. Tuples on both sides have the same sorts.
pub(crate) fn raise<D: NumDom>(
    alloc: Global,
    marks: &Thresholds,
    round: u64,
    old: Option<AbsTuple<D>>,
    new: Option<AbsTuple<D>>,
) -> Result<Option<AbsTuple<D>>, NoMemory>
    requires { IsTrue (sides_fit old new) }
    ensures { IfOk result (λ side. (s : Setting) (covers : _) → side ≡ raised (walks_of D.domain D.FINITE marks.now s covers) round old new) }
{
    if lies_below(new.as_ref(), old.as_ref()) {
        return Ok(old);
    }
    match (old, new) {
        (Some(old), Some(new)) => Ok(Some(stretch(alloc, marks, round, &old, &new)?)),
        (Some(old), None) => Ok(Some(old)),
        (None, new) => Ok(new),
    }
}

/// The join of a side with a tuple of its sorts.
pub(crate) fn join<D: NumDom>(
    alloc: Global,
    side: &Option<AbsTuple<D>>,
    tuple: &AbsTuple<D>,
) -> Result<AbsTuple<D>, NoMemory>
    requires { IsTrue (sides_fit side.now (Some tuple.now)) }
    ensures { IfOk result (λ joined. (finite : _) (marks : _) (s : Setting) (covers : _) → Some joined ≡ side_join (walks_of D.domain finite marks s covers) side.now (Some tuple.now)) }
{
    match side {
        Some(side) => side.join(alloc, tuple),
        None => tuple.copy(alloc),
    }
}
