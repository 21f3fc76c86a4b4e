//! Results over a small definition: a toss, a pick from a span, and a sum of two terms.
ghost use Rattle.std.specs.Prelude.{◌≤◌, length, IfOk};
ghost use Rattle.sk_term.specs.Program.{IsProgramOf};

use crate::{Found, results};
use sk_base::{FlowSort, Ident, Names, NoMemory, Seq};
use sk_def::{
    ArgSort, Bone, BoneList, Con, ConId, ConList, Def, Filter, Hook, HookId, HookList, IdentList,
    Rule, RuleList, SortId, Target, Var, VarList,
};
use sk_lex::tokens;
use sk_sort::{Checked, check_sorts};
use sk_term::{Arena, read_term};
use sk_value::{Flow, Tuple};
use std::alloc::Global;
use std::test::Fail;

/// A bone by the numbers of its variables. `Either` has two branches of two bones each.
#[derive(Clone, Copy)]
enum Step {
    Give(Filter, u8),
    Test(Filter, u8),
    Lit(u8, u8),
    Two(Filter, u8, u8, u8),
    Go(u8, u8),
    Either(u8),
}

fn variables(alloc: Global, numbers: &[u8]) -> Result<VarList, NoMemory> {
    let mut list = Seq::new(alloc);
    for number in numbers {
        list.push(Var(*number))?;
    }
    Ok(list)
}

fn names(alloc: Global, count: usize) -> Result<IdentList, NoMemory> {
    let mut list = Seq::new(alloc);
    for _ in 0..count {
        list.push(Ident::of(alloc, b"x")?)?;
    }
    Ok(list)
}

fn apply(alloc: Global, filter: Filter, args: &[u8], outs: &[u8]) -> Result<Bone, NoMemory> {
    Ok(Bone::Apply {
        filter,
        args: variables(alloc, args)?,
        outs: variables(alloc, outs)?,
    })
}

fn bone(alloc: Global, step: Step) -> Result<Bone, NoMemory> {
    match step {
        Step::Give(filter, out) => apply(alloc, filter, &[], &[out]),
        Step::Test(filter, arg) => apply(alloc, filter, &[arg], &[]),
        Step::Lit(arg, out) => apply(alloc, Filter::Lit, &[arg], &[out]),
        Step::Two(filter, a, b, out) => apply(alloc, filter, &[a, b], &[out]),
        Step::Go(term, out) => Ok(Bone::Call {
            hook: HookId(0),
            args: Seq::new(alloc),
            target: Target::Sub(Var(term)),
            outs: variables(alloc, &[out])?,
        }),
        Step::Either(export) => Ok(Bone::Either {
            branches: Seq::from_slice(alloc, &[2, 2])?,
            exports: variables(alloc, &[export])?,
        }),
    }
}

/// A rule with five variables, of which variable 4 is the output.
fn rule(alloc: Global, con: u8, terms: &[u8], steps: &[Step]) -> Result<Rule, NoMemory> {
    let mut bones: BoneList = Seq::new(alloc);
    for step in steps {
        bones.push(bone(alloc, *step)?)?;
    }
    Ok(Rule {
        hook: HookId(0),
        con: ConId(con),
        vars: names(alloc, 5)?,
        terms: variables(alloc, terms)?,
        inputs: Seq::new(alloc),
        bones,
        outputs: variables(alloc, &[4])?,
    })
}

fn con(alloc: Global, name: &[u8; 4], args: &[ArgSort]) -> Result<Con, NoMemory> {
    Ok(Con {
        name: Ident::of(alloc, name.as_slice())?,
        sort: SortId(0),
        args: Seq::from_slice(alloc, args)?,
    })
}

fn constructors(alloc: Global) -> Result<ConList, NoMemory> {
    let term = ArgSort::Term(SortId(0));
    let mut cons = Seq::new(alloc);
    cons.push(con(alloc, b"toss", &[])?)?;
    cons.push(con(alloc, b"span", &[ArgSort::Number, ArgSort::Number])?)?;
    cons.push(con(alloc, b"plus", &[term, term])?)?;
    Ok(cons)
}

fn hooks(alloc: Global) -> Result<HookList, NoMemory> {
    let mut hooks = Seq::new(alloc);
    hooks.push(Hook {
        name: Ident::of(alloc, b"go")?,
        inputs: Seq::new(alloc),
        sort: SortId(0),
        outputs: Seq::from_slice(alloc, &[FlowSort::Int])?,
    })?;
    Ok(hooks)
}

/// `toss()` gives 1 on either of two branches, `span(a, b)` picks a number, and `plus(a, b)` adds the results of two terms.
fn rules(alloc: Global) -> Result<RuleList, NoMemory> {
    let toss = [
        Step::Give(Filter::AnyBool, 0),
        Step::Either(4),
        Step::Test(Filter::IsTrue, 0),
        Step::Give(Filter::One, 4),
        Step::Test(Filter::IsFalse, 0),
        Step::Give(Filter::One, 4),
    ];
    let span = [
        Step::Lit(0, 2),
        Step::Lit(1, 3),
        Step::Two(Filter::Pick, 2, 3, 4),
    ];
    let plus = [
        Step::Go(0, 2),
        Step::Go(1, 3),
        Step::Two(Filter::Add, 2, 3, 4),
    ];
    let mut rules = Seq::new(alloc);
    rules.push(rule(alloc, 0, &[], toss.as_slice())?)?;
    rules.push(rule(alloc, 1, &[0, 1], span.as_slice())?)?;
    rules.push(rule(alloc, 2, &[0, 1], plus.as_slice())?)?;
    Ok(rules)
}

fn language(alloc: Global) -> Result<Def, NoMemory> {
    Ok(Def {
        sorts: names(alloc, 1)?,
        cons: constructors(alloc)?,
        hooks: hooks(alloc)?,
        rules: rules(alloc)?,
    })
}

/// The program of a short text.
fn program(alloc: Global, checked: &Checked, text: &[u8]) -> Result<Arena, NoMemory>
    requires { length text.now ≤ 1000 }
    ensures { IfOk result (IsProgramOf checked.now) }
{
    let Ok(tokens) = tokens(alloc, text) else {
        return Err(NoMemory);
    };
    let mut names = Names::new(alloc);
    let def = checked.def();
    match read_term(alloc, def, text, tokens.as_slice(), 0, &mut names) {
        Ok((arena, _)) => Ok(arena),
        Err(_) => Err(NoMemory),
    }
}

/// The results of `go` on a program to a depth.
fn run(alloc: Global, text: &[u8], depth: u32) -> Result<Found, NoMemory>
    requires { length text.now ≤ 1000 }
{
    let Ok(checked) = check_sorts(alloc, language(alloc)?) else {
        return Err(NoMemory);
    };
    let arena = program(alloc, &checked, text)?;
    let inputs = Tuple::new(alloc);
    results(alloc, &checked, &arena, HookId(0), 0, &inputs, depth)
}

/// How many results there are, and the sum of their outputs.
fn sizes(alloc: Global, text: &[u8], depth: u32) -> Result<(usize, i64), NoMemory>
    requires { length text.now ≤ 1000 }
{
    let found = run(alloc, text, depth)?;
    let mut sum: i64 = 0;
    for root in found.roots.as_slice() {
        if *root < found.forest.len() {
            if let [Flow::Int(number)] = found.forest.get(*root).outs.as_slice() {
                sum = sum.saturating_add(*number);
            }
        }
    }
    Ok((found.roots.len(), sum))
}

#[test]
fn results_are_found(rt: HostRuntime) -> Result<(), Fail> {
    let alloc = rt.alloc();
    assert_eq!(rt; sizes(alloc, b"toss()", 0)?, (0, 0));
    assert_eq!(rt; sizes(alloc, b"toss()", 1)?, (1, 1));
    assert_eq!(rt; sizes(alloc, b"span(3, 1)", 1)?, (0, 0));
    assert_eq!(rt; sizes(alloc, b"span(1, 64)", 1)?, (64, 2080));
    assert_eq!(rt; sizes(alloc, b"plus(span(1, 2), span(1, 2))", 1)?, (0, 0));
    assert_eq!(rt; sizes(alloc, b"plus(span(1, 2), span(1, 2))", 2)?, (3, 9));
    Ok(())
}
