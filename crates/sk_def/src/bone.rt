//! The steps of a rule.
use crate::{CountList, Filter, HookId, Var, VarList};

/// The term that a hook bone evaluates: the rule's own, or the one in a variable.
#[derive(Clone, Copy, Debug, PartialEq, Eq)]
pub enum Target {
    Own,
    Sub(Var),
}

/// One step of a rule. The branches of a branch bone follow it in the rule's list, each with as
/// many bones as its count says, inner ones counted.
#[derive(Drop)]
pub enum Bone {
    Apply {
        filter: Filter,
        args: VarList,
        outs: VarList,
    },
    Call {
        hook: HookId,
        args: VarList,
        target: Target,
        outs: VarList,
    },
    Either {
        branches: CountList,
        exports: VarList,
    },
}
