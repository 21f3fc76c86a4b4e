//! What the reading of rules is to the rounds.
ghost use Rattle.sk_abswalk.specs.RoundLaws.{ReadingsAreWalks, ReadingsAsk, AnalysedTablesAreAccepted};

use crate::laws::{walks_agree, walks_are_monotone, walks_are_proper, walks_fit};
use sk_lattice::NumDom;

/// Over every domain the walks of a well-sorted definition over a program are what the rounds ask for.
pub fn readings_are_walks<D: NumDom>()
    ensures { ReadingsAreWalks D.domain D.FINITE }
{
    walks_are_monotone::<D>();
    walks_are_proper::<D>();
    walks_fit::<D>();
}

/// Over every domain a walk under a table's answers to calls is that under the answers of its keys.
pub fn readings_ask<D: NumDom>()
    ensures { ReadingsAsk D.domain D.FINITE }
{
    walks_agree::<D>();
    walks_are_proper::<D>();
    walks_fit::<D>();
}

/// Over every domain the table at the first round that changes nothing comes within the bound and is accepted; on finite
/// domains it is the least accepted one.
pub fn analysed_tables_are_accepted<D: NumDom>()
    ensures { AnalysedTablesAreAccepted D.domain D.FINITE }
{
    readings_are_walks::<D>();
    readings_ask::<D>();
}
