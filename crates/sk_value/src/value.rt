//! Values and states.
use sk_base::Seq;

/// A number or a truth value.
#[derive(Clone, Copy, Debug, PartialEq, Eq)]
pub enum Value {
    Int(i64),
    Bool(bool),
}

/// A state: one place per name, with its value, or none where the name is unset.
pub type Store = Seq<Option<Value>>;
