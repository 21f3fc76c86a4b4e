//! The atomic operations and their words.
ghost use Rattle.std.specs.Prelude.{◌≡◌, List};
ghost use Rattle.sk_def.specs.Filters.{filter_word, filter_named, all_filters};

/// The atomic operations.
#[derive(Clone, Copy, Debug, PartialEq, Eq)]
pub enum Filter {
    Lit,
    Zero,
    One,
    Yes,
    No,
    Add,
    Sub,
    Mul,
    Neg,
    Div,
    Rem,
    Lt,
    Le,
    Eq,
    Not,
    And,
    Or,
    IsTrue,
    IsFalse,
    IsZero,
    NonZero,
    IsPos,
    IsNeg,
    Below,
    AtLeast,
    Same,
    Differ,
    OfInt,
    OfBool,
    AsInt,
    AsBool,
    Empty,
    Read,
    Write,
    Forget,
    Bound,
    KeepInt,
    KeepBool,
    KeepVal,
    KeepStore,
    AnyBool,
    Pick,
}

/// All filters, in the order of their table.
const FILTERS: [Filter; 42] = [
    Filter::Lit,
    Filter::Zero,
    Filter::One,
    Filter::Yes,
    Filter::No,
    Filter::Add,
    Filter::Sub,
    Filter::Mul,
    Filter::Neg,
    Filter::Div,
    Filter::Rem,
    Filter::Lt,
    Filter::Le,
    Filter::Eq,
    Filter::Not,
    Filter::And,
    Filter::Or,
    Filter::IsTrue,
    Filter::IsFalse,
    Filter::IsZero,
    Filter::NonZero,
    Filter::IsPos,
    Filter::IsNeg,
    Filter::Below,
    Filter::AtLeast,
    Filter::Same,
    Filter::Differ,
    Filter::OfInt,
    Filter::OfBool,
    Filter::AsInt,
    Filter::AsBool,
    Filter::Empty,
    Filter::Read,
    Filter::Write,
    Filter::Forget,
    Filter::Bound,
    Filter::KeepInt,
    Filter::KeepBool,
    Filter::KeepVal,
    Filter::KeepStore,
    Filter::AnyBool,
    Filter::Pick,
];

/// The words of the filters, in the order of their table.
const WORDS: [&[u8]; 42] = [
    b"lit",
    b"zero",
    b"one",
    b"yes",
    b"no",
    b"add",
    b"sub",
    b"mul",
    b"neg",
    b"div",
    b"rem",
    b"lt",
    b"le",
    b"eq",
    b"not",
    b"and",
    b"or",
    b"is_true",
    b"is_false",
    b"is_zero",
    b"non_zero",
    b"is_pos",
    b"is_neg",
    b"below",
    b"at_least",
    b"same",
    b"differ",
    b"of_int",
    b"of_bool",
    b"as_int",
    b"as_bool",
    b"empty",
    b"read",
    b"write",
    b"forget",
    b"bound",
    b"keep_int",
    b"keep_bool",
    b"keep_val",
    b"keep_store",
    b"any_bool",
    b"pick",
];

/// The word of a filter in a definition text.
pub fn filter_word(filter: Filter) -> &'static [u8]
    ensures { result.now ≡ filter_word filter }
{
    WORDS[filter as usize]
}

/// The filter that has this word, none exactly where no filter has it.
pub fn filter_named(word: &[u8]) -> Option<Filter>
    ensures { result ≡ filter_named word.now }
{
    FILTERS
        .iter()
        .copied()
        .find(|filter| filter_word(*filter) == word)
}
