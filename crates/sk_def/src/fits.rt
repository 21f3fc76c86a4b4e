//! Whether a definition is within the limits, with each number in it one of its lists.
ghost use Rattle.std.specs.Prelude.{◌≡◌, ◌↔◌, length, IsTrue};
ghost use Rattle.std.specs.List.{list_all};
ghost use Rattle.sk_def.specs.Fits.{DefinitionFits, are_below, bones_fit, argument_fits, constructor_fits, hook_fits, rule_fits, lists_are_short, has_few_branches, rule_is_short, definition_fits};

use crate::layout::bones_fit;
use crate::{ArgSort, Bone, Con, Def, Hook, Rule, Var};

/// The term sort that an argument names, if it names one, is declared.
fn argument_fits(sorts: usize, argument: ArgSort) -> bool
    ensures { result ≡ argument_fits sorts argument }
{
    match argument {
        ArgSort::Term(sort) => usize::from(sort.0) < sorts,
        ArgSort::Number | ArgSort::Name => true,
    }
}

/// The term sorts that the arguments name are declared.
fn arguments_fit(sorts: usize, arguments: &[ArgSort]) -> bool
    ensures { result ≡ list_all (argument_fits sorts) arguments.now }
{
    arguments
        .iter()
        .all(|argument| argument_fits(sorts, *argument))
}

/// The sorts that a constructor names are declared, and it has few arguments.
fn constructor_fits(sorts: usize, con: &Con) -> bool
    ensures { result ≡ constructor_fits sorts con.now }
{
    if usize::from(con.sort.0) >= sorts || con.args.len() > 8 {
        return false;
    }
    arguments_fit(sorts, con.args.as_slice())
}

/// The sort that a hook names is declared, and it has few inputs and outputs.
fn hook_fits(sorts: usize, hook: &Hook) -> bool
    ensures { result ≡ hook_fits sorts hook.now }
{
    usize::from(hook.sort.0) < sorts && hook.inputs.len() <= 4 && hook.outputs.len() <= 4
}

/// Each variable lies below the number of variables.
fn variables_fit(vars: usize, variables: &[Var]) -> bool
    ensures { result ≡ are_below vars variables.now }
{
    variables
        .iter()
        .all(|variable| usize::from(variable.0) < vars)
}

/// The bones of a rule lie as they must.
fn rule_bones_fit(hooks: usize, rule: &Rule) -> bool
    ensures { result ≡ bones_fit hooks (length rule.now.vars) (length rule.now.bones) 8 rule.now.bones }
{
    bones_fit(hooks, rule.vars.len(), 8, rule.bones.as_slice())
}

/// The numbers that a rule names exist, it has few variables and bones, and its bones lie as they must.
fn rule_fits(def: &Def, rule: &Rule) -> bool
    ensures { result ≡ rule_fits def.now rule.now }
{
    let vars = rule.vars.len();
    if usize::from(rule.hook.0) >= def.hooks.len() || usize::from(rule.con.0) >= def.cons.len() {
        return false;
    }
    if vars > 64 || !variables_fit(vars, rule.terms.as_slice()) {
        return false;
    }
    if !variables_fit(vars, rule.inputs.as_slice())
        || !variables_fit(vars, rule.outputs.as_slice())
    {
        return false;
    }
    if rule.bones.len() > 64 {
        return false;
    }
    rule_bones_fit(def.hooks.len(), rule)
}

/// Each list of variables of a bone has few entries.
fn lists_are_short(bone: &Bone) -> bool
    ensures { result ≡ lists_are_short bone.now }
{
    match bone {
        Bone::Apply { args, outs, .. } => args.len() <= 8 && outs.len() <= 8,
        Bone::Call { args, outs, .. } => args.len() <= 8 && outs.len() <= 8,
        Bone::Either { exports, .. } => exports.len() <= 8,
    }
}

/// A branch bone has few branches.
fn has_few_branches(bone: &Bone) -> bool
    ensures { result ≡ has_few_branches bone.now }
{
    match bone {
        Bone::Either { branches, .. } => branches.len() <= 8,
        Bone::Apply { .. } | Bone::Call { .. } => true,
    }
}

/// The lists of variables of the bones have few entries.
fn bones_are_short(bones: &[Bone]) -> bool
    ensures { result ≡ list_all lists_are_short bones.now }
{
    bones.iter().all(|bone| lists_are_short(bone))
}

/// The branch bones have few branches.
fn branches_are_few(bones: &[Bone]) -> bool
    ensures { result ≡ list_all has_few_branches bones.now }
{
    bones.iter().all(|bone| has_few_branches(bone))
}

/// The lists of variables of a rule and of its bones have few entries, and its branch bones few branches.
fn rule_is_short(rule: &Rule) -> bool
    ensures { result ≡ rule_is_short rule.now }
{
    if rule.terms.len() > 8 || rule.inputs.len() > 8 || rule.outputs.len() > 8 {
        return false;
    }
    bones_are_short(rule.bones.as_slice()) && branches_are_few(rule.bones.as_slice())
}

/// Each constructor fits.
fn constructors_fit(sorts: usize, cons: &[Con]) -> bool
    ensures { result ≡ list_all (constructor_fits sorts) cons.now }
{
    cons.iter().all(|con| constructor_fits(sorts, con))
}

/// Each hook fits.
fn hooks_fit(sorts: usize, hooks: &[Hook]) -> bool
    ensures { result ≡ list_all (hook_fits sorts) hooks.now }
{
    hooks.iter().all(|hook| hook_fits(sorts, hook))
}

/// Each rule fits.
fn rules_fit(def: &Def) -> bool
    ensures { result ≡ list_all (rule_fits def.now) def.now.rules }
{
    def.rules.as_slice().iter().all(|rule| rule_fits(def, rule))
}

/// Each rule is short.
fn rules_are_short(rules: &[Rule]) -> bool
    ensures { result ≡ list_all rule_is_short rules.now }
{
    rules.iter().all(|rule| rule_is_short(rule))
}

/// All parts of the definition fit.
fn parts_fit(def: &Def) -> bool
    ensures { result ≡ definition_fits def.now }
{
    let sorts = def.sorts.len();
    if sorts > 16 || def.cons.len() > 128 || def.hooks.len() > 8 {
        return false;
    }
    if !constructors_fit(sorts, def.cons.as_slice()) || !hooks_fit(sorts, def.hooks.as_slice()) {
        return false;
    }
    rules_fit(def) && rules_are_short(def.rules.as_slice())
}

/// Whether the definition is within the limits, each number in it is of its lists, and the bones of its
/// rules lie as they must.
pub fn definition_fits(def: &Def) -> bool
    ensures test { result ≡ definition_fits def.now }
    ensures fits { IsTrue result ↔ DefinitionFits def.now }
{
    parts_fit(def)
}
