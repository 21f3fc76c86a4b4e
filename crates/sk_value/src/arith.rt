//! The operations on whole numbers that filters and domains share.
ghost use Rattle.sk_value.specs.Numbers.{ResultsAreGiven};

/// The operations that give numbers. `Pick` gives the numbers from one to another, both included, where these are few.
#[derive(Clone, Copy, Debug, PartialEq, Eq)]
pub enum Arith {
    Add,
    Sub,
    Mul,
    Div,
    Rem,
    Pick,
}

/// The comparisons that give a truth value.
#[derive(Clone, Copy, Debug, PartialEq, Eq)]
pub enum Compare {
    Lt,
    Le,
    Eq,
}

/// The comparisons that keep a pair of numbers or drop it.
#[derive(Clone, Copy, Debug, PartialEq, Eq)]
pub enum Refine {
    Below,
    AtLeast,
    Same,
    Differ,
}

/// An operation gives just the numbers of its list of results.
pub fn results_are_given()
    ensures { ResultsAreGiven }
{}
