//! The laws of abstract walks and of accepted tables.
ghost use Rattle.std.specs.Prelude.{Option};
ghost use Rattle.sk_table.specs.declared.triple.Cover.{Cover};
ghost use Rattle.sk_abswalk.specs.Walk.{AbsEnv};
ghost use Rattle.sk_abswalk.specs.Tables.{AcceptedAreSound};
ghost use Rattle.sk_abswalk.specs.Order.{WalksAreMonotone, WalksAgree, BoundsDoNotMatter, WalksAreProper};
ghost use Rattle.sk_abswalk.specs.Fits.{WalksFit, AnswersOfTablesFit};
ghost use Rattle.sk_abswalk.specs.Answered.{AnswersAreMeets, AnswersAreMonotone};
ghost use Rattle.sk_abswalk.specs.Meaning.{Reader, WalkerWalks};

use sk_absfilter::{filters_are_monotone, filters_are_sound};
use sk_lattice::NumDom;

/// Over every domain, each valid derivation that an accepted table's triple covers, of any height, ends in outputs that
/// the triple's cover, and each that a cover line covers in outputs that the table's answer to the line covers.
pub fn accepted_tables_are_sound<D: NumDom>()
    ensures { AcceptedAreSound D.domain }
{
    filters_are_sound::<D>();
}

/// Over every domain, a walk from lesser inputs and with lesser answers asks lesser calls and ends in a lesser outcome.
pub fn walks_are_monotone<D: NumDom>()
    ensures { WalksAreMonotone D.domain }
{
    filters_are_monotone::<D>();
}

/// Over every domain, answers that agree on the calls of a walk give the same walk.
pub fn walks_agree<D: NumDom>()
    ensures { WalksAgree D.domain }
{}

/// Over every domain, the bound of a walk does not matter where it is at least the number of bones.
pub fn bounds_do_not_matter<D: NumDom>()
    ensures { BoundsDoNotMatter D.domain }
{}

/// Over every domain, walks from proper inputs and with proper answers ask proper calls and end in proper outcomes.
pub fn walks_are_proper<D: NumDom>()
    ensures { WalksAreProper D.domain }
{}

/// Over every domain, what the walker walks by the abstract interpretation is the abstract walk, for all states, worlds
/// and stops of the interpretation.
pub fn walker_walks<D: NumDom, S, W, X>()
    ensures { (r : Reader S D) (world : W → Option (AbsEnv D)) (stop : X → Option (Option (Cover D))) → WalkerWalks r world stop D.domain }
{}

/// Over every domain, in a well-sorted definition the walk of a call that fits, with answers that fit, meets no bone that
/// doesn't, asks calls that fit, and ends in outputs of the hook's sorts.
pub fn walks_fit<D: NumDom>()
    ensures { WalksFit D.domain }
{}

/// Over every domain, what a table that fits answers to calls that fit has the sorts of the hooks' outputs.
pub fn answers_of_tables_fit<D: NumDom>()
    ensures { AnswersOfTablesFit D.domain }
{}

/// Over every domain, a table answers a call just where a triple is above it, with the greatest of what lies below the
/// outputs of all triples above it, in whatever order they stand.
pub fn answers_are_meets<D: NumDom>()
    ensures { AnswersAreMeets D.domain }
{}

/// Over every domain, a table answers lesser calls with lesser outputs.
pub fn answers_are_monotone<D: NumDom>()
    ensures { AnswersAreMonotone D.domain }
{}
