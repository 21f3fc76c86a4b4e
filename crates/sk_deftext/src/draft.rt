//! What was read of a definition so far.

ghost use Rattle.std.specs.Prelude.{◌≡◌};
ghost use Rattle.sk_deftext.specs.Reading.{nothing};

use sk_base::{Ident, Names, Seq, Stack};
use sk_def::{
    ArgSorts, BoneList, ConId, CountList, Def, Filter, FlowSorts, HookId, SortId, Target, VarList,
};
use std::alloc::Global;

/// What was read so far: the items that were read to their ends, and beside them the parts of the one that is being read.
#[derive(Drop)]
pub struct Draft {
    pub def: Def,
    /// The word `hook` of each hook.
    pub hooks: Seq<usize>,
    /// Of each rule: its word `rule`, the first token of each bone, and its last `->`.
    pub rules: Seq<Seq<usize>>,
    /// The first word of the item that is being read.
    pub begun: usize,
    /// The name of the constructor or the hook that is being read, and the sort that it names.
    pub con_name: Option<Ident>,
    pub hook_name: Option<Ident>,
    pub sort: Option<SortId>,
    pub args: ArgSorts,
    pub inputs: FlowSorts,
    pub outputs: FlowSorts,
    /// The hook and the constructor of the rule that is being read.
    pub hook: Option<HookId>,
    pub con: Option<ConId>,
    pub vars: Names,
    pub terms: VarList,
    pub rule_inputs: VarList,
    /// The first token of each bone, and the `->` after the last brace.
    pub marks: Seq<usize>,
    pub closing: usize,
    /// The bones of the innermost list that is being read.
    pub bones: BoneList,
    /// The branch bones whose branches are being read, the innermost first.
    pub unclosed: Stack<OpenBone>,
    /// The filter or hook bone that is being read.
    pub opened: Option<BoneHead>,
    pub bone_args: VarList,
    pub target: Target,
    /// The list of variables that is being read.
    pub listed: VarList,
}

impl Draft {
    /// Nothing was read.
    pub(crate) fn new(alloc: Global) -> Draft
        ensures { result ≡ nothing }
    {
        Draft {
            def: Def {
                sorts: Seq::new(alloc),
                cons: Seq::new(alloc),
                hooks: Seq::new(alloc),
                rules: Seq::new(alloc),
            },
            hooks: Seq::new(alloc),
            rules: Seq::new(alloc),
            begun: 0,
            con_name: None,
            hook_name: None,
            sort: None,
            args: Seq::new(alloc),
            inputs: Seq::new(alloc),
            outputs: Seq::new(alloc),
            hook: None,
            con: None,
            vars: Names::new(alloc),
            terms: Seq::new(alloc),
            rule_inputs: Seq::new(alloc),
            marks: Seq::new(alloc),
            closing: 0,
            bones: Seq::new(alloc),
            unclosed: Stack::new(alloc),
            opened: None,
            bone_args: Seq::new(alloc),
            target: Target::Own,
            listed: Seq::new(alloc),
        }
    }
}

/// A branch bone whose branches are being read.
#[derive(Drop)]
pub struct OpenBone {
    /// The bones before it in its list.
    pub before: BoneList,
    /// How many bones each finished branch has, and these bones.
    pub counts: CountList,
    pub inside: BoneList,
}

/// The first word of a filter or hook bone.
#[derive(Clone, Copy)]
pub enum BoneHead {
    Filter(Filter),
    Hook(HookId),
}
