//! The laws of derivations.
ghost use Rattle.sk_deriv.specs.Exchange.{ExchangeKeeps};
ghost use Rattle.sk_deriv.specs.Forest.{NodesAreTrees, TreesStay};
ghost use Rattle.sk_deriv.specs.Listing.{ListingIsExact};
ghost use Rattle.sk_deriv.specs.Results.{ResultsAreOne, WordsDecode};

/// Of two derivations of one call, no word is a proper prefix of the other's, and equal words mean equal derivations.
pub fn words_decode()
    ensures { WordsDecode }
{}

/// A call has one list of results to a depth.
pub fn results_are_one()
    ensures { ResultsAreOne }
{}

/// Where a direct subtree is exchanged for a better one, a derivation stays one, with the same outputs and a smaller word.
pub fn exchange_keeps()
    ensures { ExchangeKeeps }
{}

/// The plain listing has exactly the derivations of a call to a depth, and their words strictly increase.
pub fn listing_is_exact()
    ensures { ListingIsExact }
{}

/// A node of a forest stands for the derivation of its steps, with what the nodes of its subtrees stand for.
pub fn nodes_are_trees()
    ensures { NodesAreTrees }
{}

/// What the nodes of a forest stand for stays as more are added.
pub fn trees_stay()
    ensures { TreesStay }
{}
