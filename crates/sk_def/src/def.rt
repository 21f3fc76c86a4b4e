//! Definitions.
ghost use Rattle.std.specs.Prelude.{◌≡◌, ◌<◌, ◌≤◌, length, IfSome};
ghost use Rattle.std.specs.Option.{option_copied};
ghost use Rattle.sk_def.specs.Named.{con_named, hook_name, hook_named, place_of_con, place_of_hook};
ghost use Rattle.sk_def.specs.Rules.{rule_of};

use crate::{
    ArgSorts, BoneList, ConId, ConList, FlowSorts, HookId, HookList, IdentList, RuleList, SortId,
    VarList,
};
use sk_base::Ident;

/// A constructor: its name, its term sort, and the sorts of its arguments.
#[derive(Drop)]
pub struct Con {
    pub name: Ident,
    pub sort: SortId,
    pub args: ArgSorts,
}

/// A hook: its name, the sorts of its flow inputs, the sort of the terms that it evaluates, and
/// the sorts of its flow outputs.
#[derive(Drop)]
pub struct Hook {
    pub name: Ident,
    pub inputs: FlowSorts,
    pub sort: SortId,
    pub outputs: FlowSorts,
}

/// The rule of a hook and a constructor. `vars` are the names of its variables by first appearance,
/// and the bones stand in text order, inner ones included.
#[derive(Drop)]
pub struct Rule {
    pub hook: HookId,
    pub con: ConId,
    pub vars: IdentList,
    pub terms: VarList,
    pub inputs: VarList,
    pub bones: BoneList,
    pub outputs: VarList,
}

/// The definition of a language.
#[derive(Drop)]
pub struct Def {
    pub sorts: IdentList,
    pub cons: ConList,
    pub hooks: HookList,
    pub rules: RuleList,
}

/// The first place of a constructor of this name.
fn place_of_con(cons: &[Con], word: &[u8]) -> Option<usize>
    ensures place { result ≡ place_of_con cons.now word.now }
    ensures within { IfSome result (λ place. place < length cons.now) }
{
    cons.iter().position(|con| con.name.is(word))
}

/// The first place of a hook of this name.
fn place_of_hook(hooks: &[Hook], word: &[u8]) -> Option<usize>
    ensures place { result ≡ place_of_hook hooks.now word.now }
    ensures within { IfSome result (λ place. place < length hooks.now) }
{
    hooks.iter().position(|hook| hook.name.is(word))
}

impl Def {
    /// The first rule of the hook and the constructor, none exactly where there is none.
    pub fn rule_of(&self, hook: HookId, con: ConId) -> Option<&Rule>
        ensures { option_copied result ≡ rule_of self.now hook con }
    {
        self.rules
            .as_slice()
            .iter()
            .find(|rule| rule.hook == hook && rule.con == con)
    }

    /// The constructor of a name, none exactly where there is none.
    pub fn con_named(&self, word: &[u8]) -> Option<ConId>
        requires { length self.now.cons ≤ 128 }
        ensures found { result ≡ con_named self.now word.now }
        ensures declared { IfSome result (λ con. con.0 < length self.now.cons) }
    {
        let place = place_of_con(self.cons.as_slice(), word)?;
        Some(ConId(place as u8))
    }

    /// The hook of a name, none exactly where there is none.
    pub fn hook_named(&self, word: &[u8]) -> Option<HookId>
        requires { length self.now.hooks ≤ 8 }
        ensures found { result ≡ hook_named self.now word.now }
        ensures declared { IfSome result (λ hook. hook.0 < length self.now.hooks) }
    {
        let place = place_of_hook(self.hooks.as_slice(), word)?;
        Some(HookId(place as u8))
    }

    /// The name of a hook of the definition, empty where it has no such hook.
    pub fn hook_name(&self, hook: HookId) -> &[u8]
        ensures { result.now ≡ hook_name self.now hook }
    {
        match self.hooks.as_slice().get(usize::from(hook.0)) {
            Some(found) => found.name.as_bytes(),
            None => b"",
        }
    }
}
