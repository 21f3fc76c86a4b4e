//! One definition with one hook and two constructors, whose second rule is varied.
use crate::{SortError, SortFault, check_sorts};
use sk_base::{FlowSort, Ident, NoMemory, Seq};
use sk_def::{
    ArgSort, Bone, BoneList, Con, ConId, Def, Filter, Hook, HookId, IdentList, Rule, SortId,
    Target, Var, VarList,
};
use std::alloc::Global;
use std::test::Fail;

/// A bone by the numbers of its variables. `Either` has two branches of one bone each.
#[derive(Clone, Copy)]
enum Step {
    Zero(u8),
    Keep(u8, u8),
    Eval(u8, u8, u8),
    Twice(u8, u8, u8, u8),
    Own(u8, u8),
    Either(u8),
}

/// The bones of a rule for `plus` that is well sorted.
const GOOD: [Step; 5] = [
    Step::Own(5, 2),
    Step::Either(3),
    Step::Eval(5, 1, 3),
    Step::Zero(3),
    Step::Keep(3, 4),
];

fn variables(alloc: Global, numbers: &[u8]) -> Result<VarList, NoMemory> {
    let mut list = Seq::new(alloc);
    for number in numbers {
        list.push(Var(*number))?;
    }
    Ok(list)
}

fn names(alloc: Global, count: usize) -> Result<IdentList, NoMemory> {
    let mut list = Seq::new(alloc);
    for _ in 0..count {
        list.push(Ident::of(alloc, b"x")?)?;
    }
    Ok(list)
}

fn call(alloc: Global, target: Target, arg: u8, outs: &[u8]) -> Result<Bone, NoMemory> {
    Ok(Bone::Call {
        hook: HookId(0),
        args: variables(alloc, &[arg])?,
        target,
        outs: variables(alloc, outs)?,
    })
}

fn apply(alloc: Global, filter: Filter, args: &[u8], outs: &[u8]) -> Result<Bone, NoMemory> {
    Ok(Bone::Apply {
        filter,
        args: variables(alloc, args)?,
        outs: variables(alloc, outs)?,
    })
}

fn bone(alloc: Global, step: Step) -> Result<Bone, NoMemory> {
    match step {
        Step::Zero(out) => apply(alloc, Filter::Zero, &[], &[out]),
        Step::Keep(arg, out) => apply(alloc, Filter::KeepInt, &[arg], &[out]),
        Step::Eval(arg, term, out) => call(alloc, Target::Sub(Var(term)), arg, &[out]),
        Step::Twice(arg, term, out, other) => {
            call(alloc, Target::Sub(Var(term)), arg, &[out, other])
        }
        Step::Own(arg, out) => call(alloc, Target::Own, arg, &[out]),
        Step::Either(export) => Ok(Bone::Either {
            branches: Seq::from_slice(alloc, &[1, 1])?,
            exports: variables(alloc, &[export])?,
        }),
    }
}

/// A rule with six variables, of which variable 5 is the hook's input.
fn rule(
    alloc: Global,
    con: u8,
    terms: &[u8],
    steps: &[Step],
    outputs: &[u8],
) -> Result<Rule, NoMemory> {
    let mut bones: BoneList = Seq::new(alloc);
    for step in steps {
        bones.push(bone(alloc, *step)?)?;
    }
    Ok(Rule {
        hook: HookId(0),
        con: ConId(con),
        vars: names(alloc, 6)?,
        terms: variables(alloc, terms)?,
        inputs: variables(alloc, &[5])?,
        bones,
        outputs: variables(alloc, outputs)?,
    })
}

/// `num(number)`, `plus(expr, expr)` and the hook `eval(int) expr -> (int)`, without rules.
fn language(alloc: Global) -> Result<Def, NoMemory> {
    let expr = SortId(0);
    let mut cons = Seq::new(alloc);
    cons.push(Con {
        name: Ident::of(alloc, b"num")?,
        sort: expr,
        args: Seq::from_slice(alloc, &[ArgSort::Number])?,
    })?;
    cons.push(Con {
        name: Ident::of(alloc, b"plus")?,
        sort: expr,
        args: Seq::from_slice(alloc, &[ArgSort::Term(expr), ArgSort::Term(expr)])?,
    })?;
    let mut hooks = Seq::new(alloc);
    hooks.push(Hook {
        name: Ident::of(alloc, b"eval")?,
        inputs: Seq::from_slice(alloc, &[FlowSort::Int])?,
        sort: expr,
        outputs: Seq::from_slice(alloc, &[FlowSort::Int])?,
    })?;
    Ok(Def {
        sorts: names(alloc, 1)?,
        cons,
        hooks,
        rules: Seq::new(alloc),
    })
}

/// The fault of the definition whose rule for `plus` stands in it so often and is made of these parts.
fn fault_of(
    alloc: Global,
    copies: usize,
    terms: &[u8],
    steps: &[Step],
    outputs: &[u8],
) -> Result<Option<SortFault>, NoMemory> {
    let mut def = language(alloc)?;
    def.rules
        .push(rule(alloc, 0, &[0], &[Step::Zero(1)], &[1])?)?;
    for _ in 0..copies {
        def.rules.push(rule(alloc, 1, terms, steps, outputs)?)?;
    }
    match check_sorts(alloc, def) {
        Ok(_) => Ok(None),
        Err(fault) => Ok(Some(fault)),
    }
}

fn bad(why: SortError, bone: u16) -> Option<SortFault> {
    Some(SortFault::Bad { why, rule: 1, bone })
}

#[test]
fn finds_the_first_fault_of_a_bone(rt: HostRuntime) -> Result<(), Fail> {
    use SortError::{Undefined, WrongCount, WrongSort};
    use Step::{Keep, Twice, Zero};
    let alloc = rt.alloc();
    let fault = fault_of(alloc, 1, &[0, 1], &[Zero(2), Keep(0, 2)], &[2])?;
    assert_eq!(rt; fault, bad(WrongSort, 2), "the argument before the output");
    let fault = fault_of(alloc, 1, &[0, 1], &[Twice(4, 2, 3, 3)], &[3])?;
    assert_eq!(rt; fault, bad(Undefined, 1), "the argument before the target");
    let fault = fault_of(alloc, 1, &[0, 1], &[Twice(5, 5, 3, 3)], &[3])?;
    assert_eq!(rt; fault, bad(WrongSort, 1), "the target before the outputs");
    let fault = fault_of(alloc, 1, &[0, 1], &[Twice(5, 0, 3, 3)], &[3])?;
    assert_eq!(rt; fault, bad(WrongCount, 1), "how many outputs before each");
    Ok(())
}

#[test]
fn finds_the_first_fault_of_branches(rt: HostRuntime) -> Result<(), Fail> {
    use SortError::{BranchLacks, Redefined};
    use Step::{Either, Eval, Zero};
    let alloc = rt.alloc();
    let lacks = [Eval(5, 0, 2), Either(3), Eval(5, 1, 3), Zero(4), Zero(2)];
    let redefined = [Eval(5, 0, 2), Either(3), Eval(5, 1, 3), Zero(3), Zero(2)];
    let fault = fault_of(alloc, 1, &[0, 1], &lacks, &[3])?;
    assert_eq!(rt; fault, bad(BranchLacks, 2), "an export that a branch lacks");
    let fault = fault_of(alloc, 1, &[0, 1], &redefined, &[3])?;
    assert_eq!(rt; fault, bad(Redefined, 5), "defined before the branches");
    Ok(())
}

#[test]
fn finds_the_first_fault_of_a_rule(rt: HostRuntime) -> Result<(), Fail> {
    use SortError::{Redefined, Undefined, WrongCount};
    use Step::Zero;
    let alloc = rt.alloc();
    let fault = fault_of(alloc, 1, &[0, 1], &GOOD, &[4])?;
    assert_eq!(rt; fault, None, "well sorted");
    let fault = fault_of(alloc, 1, &[0], &GOOD, &[4])?;
    assert_eq!(rt; fault, bad(WrongCount, 0), "a term too few");
    let fault = fault_of(alloc, 1, &[0, 0], &GOOD, &[4])?;
    assert_eq!(rt; fault, bad(Redefined, 0), "a term twice");
    let fault = fault_of(alloc, 1, &[0, 1], &[Zero(2)], &[3])?;
    assert_eq!(rt; fault, bad(Undefined, 2), "an output that isn't defined");
    let fault = fault_of(alloc, 1, &[0, 1], &[Zero(6)], &[6])?;
    let outside = SortFault::Bad {
        why: Undefined,
        rule: 0,
        bone: 0,
    };
    assert_eq!(rt; fault, Some(outside), "a variable that the rule hasn't");
    Ok(())
}

#[test]
fn finds_the_first_fault_of_the_rules(rt: HostRuntime) -> Result<(), Fail> {
    let alloc = rt.alloc();
    let fault = fault_of(alloc, 2, &[0, 1], &GOOD, &[4])?;
    let twice = SortFault::Bad {
        why: SortError::DuplicateRule,
        rule: 2,
        bone: 0,
    };
    assert_eq!(rt; fault, Some(twice), "a second rule");
    let fault = fault_of(alloc, 0, &[0, 1], &GOOD, &[4])?;
    let missing = SortFault::MissingRule {
        hook: HookId(0),
        con: ConId(1),
    };
    assert_eq!(rt; fault, Some(missing), "no rule for the second constructor");
    Ok(())
}
