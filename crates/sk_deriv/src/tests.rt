//! Heights and words of small forests, and tuples of small texts.
ghost use Rattle.std.specs.Prelude.{◌≡◌, ◌≤◌, [], ◌∷◌, length, IfOk};

use crate::{Forest, Node, Step, StepList, TupleError, TupleFault, read_tuple};
use sk_base::{FlowSort, Ident, Names, NoMemory, Seq};
use sk_def::{Def, Hook, HookId, SortId};
use sk_lex::tokens;
use sk_value::{Flow, Tuple};
use std::alloc::Global;
use std::test::Fail;

fn node(alloc: Global, first: Step) -> Result<Node, NoMemory>
    ensures steps { IfOk result (λ made. made.steps ≡ first ∷ []) }
    ensures outputs { IfOk result (λ made. made.outs ≡ []) }
{
    let mut steps = StepList::new(alloc);
    steps.push(first)?;
    Ok(Node {
        hook: HookId(0),
        point: 0,
        ins: Tuple::new(alloc),
        steps,
        outs: Tuple::new(alloc),
    })
}

#[test]
fn words_are_ordered(rt: HostRuntime) -> Result<(), Fail> {
    let alloc = rt.alloc();
    let mut forest = Forest::new(alloc);
    let first = forest.push(node(alloc, Step::Pick(1))?)?;
    let second = forest.push(node(alloc, Step::Pick(2))?)?;
    assert_eq!(rt; forest.len(), 2);
    let above = forest.push(node(alloc, Step::Sub(1))?)?;
    assert_eq!(rt; above, 2);
    assert_eq!(rt; forest.len(), 3);
    assert_eq!(rt; (forest.height(0), forest.height(2)), (1, 2));
    assert!(rt; forest.less(first, above));
    assert!(rt; !forest.less(second, above));
    Ok(())
}

/// A definition of one hook, `go`.
fn one_hook(alloc: Global) -> Result<Def, NoMemory> {
    let mut hooks = Seq::new(alloc);
    hooks.push(Hook {
        name: Ident::of(alloc, b"go")?,
        inputs: Seq::new(alloc),
        sort: SortId(0),
        outputs: Seq::new(alloc),
    })?;
    Ok(Def {
        sorts: Seq::new(alloc),
        cons: Seq::new(alloc),
        hooks,
        rules: Seq::new(alloc),
    })
}

#[test]
fn derivations_are_printed(rt: HostRuntime) -> Result<(), Fail> {
    let alloc = rt.alloc();
    let mut forest = Forest::new(alloc);
    let mut toss = node(alloc, Step::Pick(0))?;
    toss.outs.push(Flow::Int(1))?;
    forest.push(toss)?;
    let root = forest.push(node(alloc, Step::Sub(0))?)?;
    assert_eq!(rt; forest.len(), 2);
    let mut out = Vec::new(alloc);
    forest.put_derivation(&one_hook(alloc)?, &Names::new(alloc), root, &mut out)?;
    assert_eq!(rt;
        out.as_slice(),
        b"0 go 0 () -> ()\n1 go 0 () -> (1)\n2 pick 0\n".as_slice()
    );
    Ok(())
}

/// What is read of a text where `y` is a name: the tuple's text, the number of names, and the place of the next token.
fn read(
    alloc: Global,
    sorts: &[FlowSort],
    text: &[u8],
) -> Result<(Vec<u8>, usize, usize), TupleFault>
    requires { length sorts.now ≤ 4 }
{
    let sorts = Seq::from_slice(alloc, sorts)?;
    let mut names = Names::new(alloc);
    if text.len() > 1_000_000 || names.add(&Ident::of(alloc, b"y")?).is_err() {
        return Err(TupleFault::NoMemory);
    }
    let Ok(tokens) = tokens(alloc, text) else {
        return Err(TupleFault::NoMemory);
    };
    let (tuple, next) = read_tuple(alloc, &sorts, &mut names, text, tokens.as_slice(), 0)?;
    let mut out = Vec::new(alloc);
    tuple.put_text(&names, &mut out)?;
    Ok((out, names.count(), next))
}

/// Whether a text of a number and a store is refused so.
fn is_refused(alloc: Global, text: &[u8], error: TupleError, place: usize) -> bool {
    read(alloc, &[FlowSort::Int, FlowSort::Store], text).err()
        == Some(TupleFault::Bad(error, place))
}

/// Whether a tuple with this text is read up to the last token but one, and two names stand then.
fn is_read(alloc: Global, sorts: &[FlowSort], text: &[u8], printed: &[u8]) -> bool
    requires { length sorts.now ≤ 4 }
{
    match read(alloc, sorts, text) {
        Ok((out, names, next)) => out.as_slice() == printed && names == 2 && next == 17,
        Err(_) => false,
    }
}

#[test]
fn tuples_are_read(rt: HostRuntime) {
    let alloc = rt.alloc();
    assert!(rt;
        is_read(
            alloc,
            &[
                FlowSort::Int,
                FlowSort::Store,
                FlowSort::Bool,
                FlowSort::Val,
            ],
            b"(-3, { x = 3, y = true }, false, 07) x",
            b"(-3, {y=true, x=3}, false, 7)",
        )
    );
    assert!(rt; is_refused(alloc, b"(1, )", TupleError::WrongCount, 3));
    assert!(rt; is_refused(alloc, b"(1, {x=1}, ", TupleError::WrongCount, 8));
    assert!(rt; is_refused(alloc, b"(1, {x=1, x=2})", TupleError::Duplicate, 8));
    assert!(rt; is_refused(alloc, b"(1, {x=1,})", TupleError::Unexpected, 8));
    assert!(rt; is_refused(alloc, b"(1, {x=1", TupleError::Unexpected, 7));
}
