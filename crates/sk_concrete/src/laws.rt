//! The law of results.
ghost use Rattle.sk_concrete.specs.Found.{EachCallHasResults};

/// Each call, in every definition and program, has a list of results to each depth.
pub fn each_call_has_results()
    ensures { EachCallHasResults }
{}
