//! Definitions of languages as skeletons: sorts, constructors, hooks and rules with their bones, what each
//! filter takes and gives, and how the bones of a rule lie in their flat list. The readers, the sort checks and
//! all interpretations stand on these types.
#![tactic(auto)]

mod bone;
mod def;
mod filter;
mod filter_sorts;
mod fits;
mod ids;
mod layout;
mod sorts;

pub use bone::{Bone, Target};
pub use def::{Con, Def, Hook, Rule};
pub use filter::{Filter, filter_named, filter_word};
pub use filter_sorts::{parameters, results, signature};
pub use fits::definition_fits;
pub use ids::{ConId, HookId, SortId, Var};
pub use layout::bones_fit;
use sk_base::{FlowSort, Ident, Seq};
pub use sorts::{ArgSort, ParamSort, Signature, VarSort, is_sort};

pub type ArgSorts = Seq<ArgSort>;

pub type FlowSorts = Seq<FlowSort>;

pub type VarList = Seq<Var>;

pub type CountList = Seq<u8>;

pub type BoneList = Seq<Bone>;

pub type IdentList = Seq<Ident>;

pub type ConList = Seq<Con>;

pub type HookList = Seq<Hook>;

pub type RuleList = Seq<Rule>;
