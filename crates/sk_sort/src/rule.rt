//! The checks of a rule: the header, the bones, the closing outputs.
ghost use Rattle.std.specs.Prelude.{◌≡◌, ◌+◌, ◌≤◌, ◌∷◌, [], length};
ghost use Rattle.std.specs.Result.{result_err};
ghost use Rattle.sk_def.specs.Fits.{RuleFits};
ghost use Rattle.sk_def.specs.Layout.{AreBelow};
ghost use Rattle.sk_sort.specs.Checks.{first_error};
ghost use Rattle.sk_sort.specs.Parts.{first_failing, AnswersParts};
ghost use Rattle.sk_sort.specs.Rules.{rule_fault, header_checks, header_sorts, closing_checks, AnswersStart};

use crate::SortError;
use crate::checks::{VarSorts, check_count, check_flows};
use crate::header::{check_header, define_header, header_variables, nothing};
use crate::interp::{SortInterp, SortStop};
use sk_def::{Con, Def, Hook, Rule};
use sk_walk::{WalkStop, walk};
use std::alloc::Global;

/// The checks of a rule's header, and the sorts after it.
fn check_start(
    alloc: Global,
    earlier: &[Rule],
    rule: &Rule,
    hook: &Hook,
    con: &Con,
) -> Result<VarSorts, SortStop>
    requires terms_below { AreBelow (length rule.now.vars) rule.now.terms }
    requires inputs_below { AreBelow (length rule.now.vars) rule.now.inputs }
    ensures { AnswersStart (header_checks earlier.now rule.now hook.now con.now) (header_sorts rule.now hook.now con.now) result }
{
    let mut world = match nothing(alloc, rule) {
        Ok(world) => world,
        Err(_) => return Err(SortStop::NoMemory),
    };
    let variables = match header_variables(alloc, rule) {
        Ok(variables) => variables,
        Err(_) => return Err(SortStop::NoMemory),
    };
    match check_header(earlier, rule, hook, con, &world, &variables) {
        Err(why) => Err(SortStop::Bad { why, bone: 0 }),
        Ok(()) => {
            define_header(&mut world, rule, hook, con);
            Ok(world)
        }
    }
}

/// The checks of a rule's closing outputs.
fn check_outputs(world: &VarSorts, rule: &Rule, hook: &Hook) -> Result<(), SortError>
    requires { AreBelow (length world.now) rule.now.outputs }
    ensures { result_err result ≡ first_error (closing_checks world.now rule.now hook.now) }
{
    check_count(rule.outputs.len(), hook.outputs.len())?;
    check_flows(
        world.as_slice(),
        rule.outputs.as_slice(),
        hook.outputs.as_slice(),
    )
}

/// The closing part of a rule.
fn check_closing(world: &VarSorts, rule: &Rule, hook: &Hook) -> Result<(), SortStop>
    requires below { AreBelow (length world.now) rule.now.outputs }
    requires few { length rule.now.bones ≤ 64 }
    ensures { AnswersParts (first_failing (record { number = length rule.now.bones + 1; checks = closing_checks world.now rule.now hook.now } ∷ [])) tt result }
{
    match check_outputs(world, rule, hook) {
        Ok(()) => Ok(()),
        Err(why) => Err(SortStop::Bad {
            why,
            bone: rule.bones.len() as u16 + 1,
        }),
    }
}

/// The checks of a rule, where these rules stand above.
pub fn check_rule(alloc: Global, def: &Def, earlier: &[Rule], rule: &Rule) -> Result<(), SortStop>
    requires { RuleFits def.now rule.now }
    ensures { AnswersParts (rule_fault def.now earlier.now rule.now) tt result }
{
    let hook = def.hooks.get(usize::from(rule.hook.0));
    let con = def.cons.get(usize::from(rule.con.0));
    let world = match check_start(alloc, earlier, rule, hook, con) {
        Ok(world) => world,
        Err(stop) => return Err(stop),
    };
    let mut interp = SortInterp::new(alloc, def, con.sort);
    match walk(alloc, &mut interp, &rule.bones, world) {
        Ok(world) => check_closing(&world, rule, hook),
        Err(WalkStop::Stop(stop)) => Err(stop),
        Err(WalkStop::NoMemory) => Err(SortStop::NoMemory),
    }
}
