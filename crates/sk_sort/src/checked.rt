//! The sort check of a definition.
ghost use Rattle.std.specs.Prelude.{◌≡◌, ◌≤◌, length, IfOk};
ghost use Rattle.sk_def.specs.declared.def.Def.{Def};
ghost use Rattle.sk_def.specs.Fits.{DefinitionFits};
ghost use Rattle.sk_sort.specs.Definition.{bad_rule, missing_constructor, missing_rule, checked_fault, first_fault, AnswersFault, DefinitionIsSorted};

use crate::interp::SortStop;
use crate::rule::check_rule;
use crate::{SortError, SortFault};
use sk_def::{ConId, Def, HookId, SortId, definition_fits};
use std::alloc::Global;
use std::marker::Model;

/// A definition that is well sorted. Only `check_sorts` makes one.
#[derive(Drop)]
pub struct Checked {
    def: Def,
}

impl Model for Checked {
    ghost Value = { Def };

    ghost view = { λ c. c.def };

    ghost invariant = { λ c. DefinitionIsSorted c.def };
}

impl Checked {
    /// The definition. It is well sorted, and its rules are as a walk asks.
    pub fn def(&self) -> &Def
        ensures is { result.now ≡ self.now }
        ensures sorted { DefinitionIsSorted self.now }
    {
        &self.def
    }
}

/// Checks the sorts of a definition. `Bad` is the first check that fails, in the order of the text;
/// `MissingRule` comes only where none fails. A definition that is past its limits, or has a number that
/// isn't of its lists, is `Undefined` at the header of its first rule, or of rule 0 where it has none. One with a fault is
/// dropped.
pub fn check_sorts(alloc: Global, def: Def) -> Result<Checked, SortFault>
    ensures answers { AnswersFault (first_fault def) result }
    ensures same { IfOk result (λ checked. checked ≡ def) }
{
    if !definition_fits(&def) {
        return Err(SortFault::Bad {
            why: SortError::Undefined,
            rule: 0,
            bone: 0,
        });
    }
    match check_all(alloc, &def) {
        Ok(()) => Ok(Checked { def }),
        Err(fault) => Err(fault),
    }
}

/// The checks of all rules, and then that none is missing.
fn check_all(alloc: Global, def: &Def) -> Result<(), SortFault>
    requires { DefinitionFits def.now }
    ensures { AnswersFault (checked_fault def.now) result }
{
    check_rules(alloc, def)?;
    check_complete(def)
}

/// The checks of all rules.
fn check_rules(alloc: Global, def: &Def) -> Result<(), SortFault>
    requires { DefinitionFits def.now }
    ensures { AnswersFault (bad_rule def.now 0 def.now.rules) result }
{
    let rules = def.rules.as_slice();
    for (place, rule) in rules.iter().enumerate() {
        match check_rule(alloc, def, &rules[..place], rule) {
            Ok(()) => {}
            Err(SortStop::Bad { why, bone }) => {
                return Err(SortFault::Bad {
                    why,
                    rule: place,
                    bone,
                });
            }
            Err(SortStop::NoMemory) => return Err(SortFault::NoMemory),
        }
    }
    Ok(())
}

/// Each hook has a rule for each constructor of its sort.
fn check_complete(def: &Def) -> Result<(), SortFault>
    requires { DefinitionFits def.now }
    ensures { AnswersFault (missing_rule def.now 0 def.now.hooks) result }
{
    for (place, hook) in def.hooks.as_slice().iter().enumerate() {
        let id = HookId(place as u8);
        if let Some(con) = missing_constructor(def, id, hook.sort) {
            return Err(SortFault::MissingRule { hook: id, con });
        }
    }
    Ok(())
}

/// The first constructor of the sort for which the hook has no rule.
fn missing_constructor(def: &Def, hook: HookId, sort: SortId) -> Option<ConId>
    requires { length def.now.cons ≤ 128 }
    ensures { result ≡ missing_constructor def.now hook sort 0 def.now.cons }
{
    for (place, con) in def.cons.as_slice().iter().enumerate() {
        let id = ConId(place as u8);
        if con.sort == sort && def.rule_of(hook, id).is_none() {
            return Some(id);
        }
    }
    None
}
