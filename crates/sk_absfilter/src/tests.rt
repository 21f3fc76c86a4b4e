//! Worked results of filters over signs, as texts.
use crate::{AbsArg, abs_apply, filters_are_monotone, filters_are_sound, filters_keep_sorts};
use sk_base::{Ident, Names, NoMemory, Seq};
use sk_def::Filter;
use sk_lattice::{AbsBool, AbsCell, AbsFlow, AbsStore, AbsVal, NumDom};
use sk_sign::Sign;
use sk_value::put_bytes;
use std::alloc::Global;
use std::test::Fail;

const NONE: Sign = Sign {
    negative: false,
    zero: false,
    positive: false,
};

const ZERO: Sign = Sign {
    negative: false,
    zero: true,
    positive: false,
};

const POS: Sign = Sign {
    negative: false,
    zero: false,
    positive: true,
};

const NONNEG: Sign = Sign {
    negative: false,
    zero: true,
    positive: true,
};

const ANY: Sign = Sign {
    negative: true,
    zero: true,
    positive: true,
};

const TRUE: AbsBool = AbsBool {
    has_true: true,
    has_false: false,
};

const NO_TRUTH: AbsBool = AbsBool {
    has_true: false,
    has_false: false,
};

const EITHER: AbsBool = AbsBool {
    has_true: true,
    has_false: true,
};

const VAL: AbsVal<Sign> = AbsVal {
    num: ZERO,
    truth: TRUE,
};

const OF_INTS: [(Filter, Sign, Sign, &str); 4] = [
    (Filter::Add, NONNEG, POS, "(pos)"),
    (Filter::Add, NONE, POS, "none"),
    (Filter::Div, ANY, ZERO, "none"),
    (Filter::Below, ANY, ZERO, "(neg, zero)"),
];

const OF_INT: [(Filter, Sign, &str); 3] = [
    (Filter::NonZero, NONNEG, "()"),
    (Filter::IsPos, ZERO, "none"),
    (Filter::OfInt, POS, "(pos/none)"),
];

const OF_TRUTHS: [(Filter, &str); 2] = [(Filter::And, "(any)"), (Filter::Or, "(true)")];

const OF_TRUTH: [(Filter, &str); 2] = [(Filter::Not, "(false)"), (Filter::OfBool, "(none/true)")];

const OF_CELL: [(Filter, &str); 3] = [
    (Filter::Read, "(pos/none)"),
    (Filter::Bound, "(any)"),
    (Filter::Forget, "({})"),
];

/// Whether the filter gives what has this text, or nothing where the text is `none`.
fn gives<D: NumDom>(
    alloc: Global,
    filter: Filter,
    args: &[AbsArg<D>],
    text: &str,
) -> Result<bool, NoMemory> {
    let mut names = Names::new(alloc);
    let x = Ident::of(alloc, b"x")?;
    if names.add(&x).is_err() {
        return Err(NoMemory);
    }
    let mut out = Vec::new(alloc);
    match abs_apply(alloc, filter, names.count(), args)? {
        Some(tuple) => tuple.put_text(&names, &mut out)?,
        None => put_bytes(&mut out, b"none")?,
    }
    Ok(out.as_slice() == text.as_bytes())
}

fn of_ints(alloc: Global, filter: Filter, a: Sign, b: Sign, text: &str) -> Result<bool, NoMemory> {
    let args = [AbsArg::Flow(AbsFlow::Int(a)), AbsArg::Flow(AbsFlow::Int(b))];
    gives(alloc, filter, &args, text)
}

fn of_flow(
    alloc: Global,
    filter: Filter,
    flow: AbsFlow<Sign>,
    text: &str,
) -> Result<bool, NoMemory> {
    gives(alloc, filter, &[AbsArg::Flow(flow)], text)
}

fn of_truths(alloc: Global, filter: Filter, text: &str) -> Result<bool, NoMemory> {
    let args: [AbsArg<Sign>; 2] = [
        AbsArg::Flow(AbsFlow::Bool(TRUE)),
        AbsArg::Flow(AbsFlow::Bool(EITHER)),
    ];
    gives(alloc, filter, &args, text)
}

/// The store in which x may be unset or positive.
fn store(alloc: Global) -> Result<AbsFlow<Sign>, NoMemory> {
    let mut cells = Seq::new(alloc);
    cells.push(AbsCell {
        val: AbsVal {
            num: POS,
            truth: NO_TRUTH,
        },
        unset: true,
    })?;
    Ok(AbsFlow::Store(AbsStore::Cells(cells)))
}

fn of_cell(alloc: Global, filter: Filter, text: &str) -> Result<bool, NoMemory> {
    let args = [AbsArg::Flow(store(alloc)?), AbsArg::Name(0)];
    gives(alloc, filter, &args, text)
}

fn write_gives(alloc: Global, text: &str) -> Result<bool, NoMemory> {
    let args = [
        AbsArg::Flow(store(alloc)?),
        AbsArg::Name(0),
        AbsArg::Flow(AbsFlow::Val(VAL)),
    ];
    gives(alloc, Filter::Write, &args, text)
}

#[test]
fn filters_over_signs(rt: HostRuntime) -> Result<(), Fail> {
    let alloc = rt.alloc();
    for (filter, a, b, text) in OF_INTS {
        assert!(rt; of_ints(alloc, filter, a, b, text)?);
    }
    for (filter, a, text) in OF_INT {
        assert!(rt; of_flow(alloc, filter, AbsFlow::Int(a), text)?);
    }
    for (filter, text) in OF_TRUTHS {
        assert!(rt; of_truths(alloc, filter, text)?);
    }
    for (filter, text) in OF_TRUTH {
        assert!(rt; of_flow(alloc, filter, AbsFlow::Bool(TRUE), text)?);
    }
    assert!(rt; of_flow(alloc, Filter::AsInt, AbsFlow::Val(VAL), "(zero)")?);
    assert!(rt; gives(alloc, Filter::Lit, &[AbsArg::<Sign>::Number(7)], "(pos)")?);
    Ok(())
}

#[test]
fn stores_over_signs(rt: HostRuntime) -> Result<(), Fail> {
    let alloc = rt.alloc();
    for (filter, text) in OF_CELL {
        assert!(rt; of_cell(alloc, filter, text)?);
    }
    assert!(rt; write_gives(alloc, "({x=zero/true})")?);
    assert!(rt; of_flow(alloc, Filter::KeepStore, store(alloc)?, "({x=pos/none?})")?);
    assert!(rt; gives::<Sign>(alloc, Filter::Empty, &[], "({})")?);
    filters_are_sound::<Sign>();
    filters_are_monotone::<Sign>();
    filters_keep_sorts::<Sign>();
    Ok(())
}
