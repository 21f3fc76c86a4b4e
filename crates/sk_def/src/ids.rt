//! The numbers by which the parts of a definition name one another: places in its lists.

/// A term sort.
#[derive(Clone, Copy, Debug, PartialEq, Eq)]
pub struct SortId(pub u8);

/// A constructor.
#[derive(Clone, Copy, Debug, PartialEq, Eq)]
pub struct ConId(pub u8);

/// A hook.
#[derive(Clone, Copy, Debug, PartialEq, Eq)]
pub struct HookId(pub u8);

/// A variable of a rule: its place among the rule's variable names.
#[derive(Clone, Copy, Debug, PartialEq, Eq)]
pub struct Var(pub u8);
