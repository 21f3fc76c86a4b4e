//! The laws of a program's number leaves and of reading terms.
ghost use Rattle.sk_term.specs.Program.{LeavesAreLiterals};
ghost use Rattle.sk_term.specs.Spelling.{OnlyTermsAreRead, TermsAreReadExactly};

/// What the nodes of a term tell of its number leaves are the numbers in the term, from left to right.
pub fn leaves_are_literals()
    ensures { LeavesAreLiterals }
{}

/// Reading a term gives its nodes, the names with its own, and the place after it, exactly where the symbols from that
/// place on begin with its spelling: given that each constructor is found by its own name, and that the names are
/// different words.
pub fn terms_are_read_exactly()
    ensures { TermsAreReadExactly }
{}

/// What is read was spelled so, whatever the definition and the names.
pub fn only_terms_are_read()
    ensures { OnlyTermsAreRead }
{}
