//! What may stand next in an abstract tuple and in a table.

/// What may stand next.
#[derive(Clone, Copy, Debug, PartialEq, Eq)]
pub(crate) enum Expected {
    /// The `(` before the flows.
    Open,
    /// The next flow, or `)` where there is none.
    Item,
    /// The `,` before the next flow, or `)` where there is none.
    After,
    /// The `/` between a number part and a truth part.
    Slash,
    /// The truth part of a val.
    Truth,
    /// The first name of a store, or `}` where there is none.
    FirstName,
    /// The next name of a store, after a comma.
    NextName,
    /// The `=` after a name.
    Equals,
    /// The number part of a cell.
    Number,
    /// The truth part of a cell.
    CellTruth,
    /// The `?` of a cell, or what follows one that has none.
    Mark,
    /// The `,` before the next name, or `}`.
    AfterName,
}

/// What may stand next in a table.
#[derive(Clone, Copy, Debug, PartialEq, Eq)]
pub(crate) enum TableExpected {
    /// The word `table`.
    TableWord,
    /// The number 1.
    One,
    /// The word of the domain.
    DomainWord,
    /// The hook of the next triple, or the end.
    HookWord,
    /// The point of a triple.
    Point,
    /// The inputs of a triple.
    Ins,
    /// The `->` of a triple.
    Arrow,
    /// The outputs of a triple, or `none`.
    Outs,
}
