//! What may stand next in a tuple.

/// What may stand next.
#[derive(Clone, Copy, Debug, PartialEq, Eq)]
pub(crate) enum Expected {
    /// The `(` before the values.
    Open,
    /// The next value, or `)` where there is none.
    Item,
    /// The `,` before the next value, or `)` where there is none.
    After,
    /// The first name of a store, or `}` where there is none.
    FirstName,
    /// The next name of a store, after a comma.
    NextName,
    /// The `=` after a name.
    Equals,
    /// The value of a name.
    SetTo,
    /// The `,` before the next name, or `}`.
    AfterName,
}
