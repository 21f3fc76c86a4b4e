//! Worked results of filters, as texts.
use crate::{Arg, apply};
use sk_base::{Ident, Names, NoMemory};
use sk_def::Filter;
use sk_value::{Flow, Store, Value};
use std::alloc::Global;
use std::test::Fail;

const CASES: [(Filter, i64, i64, &str); 20] = [
    (Filter::Add, 2, 3, "(5)"),
    (Filter::Add, i64::MAX, 1, ""),
    (Filter::Sub, i64::MIN, 1, ""),
    (Filter::Mul, -3, 4, "(-12)"),
    (Filter::Div, -7, 2, "(-3)"),
    (Filter::Div, i64::MIN, -1, ""),
    (Filter::Div, 7, 0, ""),
    (Filter::Rem, -7, 2, "(-1)"),
    (Filter::Rem, 7, -2, "(1)"),
    (Filter::Rem, i64::MIN, -1, "(0)"),
    (Filter::Rem, 7, 0, ""),
    (Filter::Lt, 1, 2, "(true)"),
    (Filter::Le, 2, 2, "(true)"),
    (Filter::Eq, 1, 2, "(false)"),
    (Filter::Below, 1, 2, "(1, 2)"),
    (Filter::AtLeast, 1, 2, ""),
    (Filter::Differ, 1, 1, ""),
    (Filter::Pick, 3, 5, "(3)(4)(5)"),
    (Filter::Pick, 5, 3, ""),
    (Filter::Pick, 0, 64, ""),
];

/// The texts of a filter's results, one after another.
fn texts(alloc: Global, filter: Filter, names: &Names, args: &[Arg]) -> Result<Vec<u8>, NoMemory> {
    let results = apply(alloc, filter, names.count(), args)?;
    let mut out = Vec::new(alloc);
    for tuple in results.as_slice() {
        tuple.put_text(names, &mut out)?;
    }
    Ok(out)
}

fn store(alloc: Global) -> Result<Arg, NoMemory> {
    let mut store = Store::new(alloc);
    store.push(Some(Value::Int(3)))?;
    store.push(None)?;
    Ok(Arg::Flow(Flow::Store(store)))
}

#[test]
fn filters_give_their_results(rt: HostRuntime) -> Result<(), Fail> {
    let alloc = rt.alloc();
    let mut names = Names::new(alloc);
    for name in [b"x", b"y"] {
        names.add(&Ident::of(alloc, name)?)?;
    }
    for (filter, a, b, text) in CASES {
        let args = [Arg::Flow(Flow::Int(a)), Arg::Flow(Flow::Int(b))];
        let found = texts(alloc, filter, &names, &args)?;
        assert_eq!(rt; found.as_slice(), text.as_bytes());
    }
    let args = [
        store(alloc)?,
        Arg::Name(1),
        Arg::Flow(Flow::Val(Value::Bool(true))),
    ];
    let written = texts(alloc, Filter::Write, &names, &args)?;
    assert_eq!(rt; written.as_slice(), b"({x=3, y=true})".as_slice());
    let unset = [store(alloc)?, Arg::Name(1)];
    assert_eq!(rt;
        texts(alloc, Filter::Read, &names, &unset)?.as_slice(),
        b"".as_slice()
    );
    let set = [store(alloc)?, Arg::Name(0)];
    assert_eq!(rt;
        texts(alloc, Filter::Forget, &names, &set)?.as_slice(),
        b"({})".as_slice()
    );
    Ok(())
}

#[test]
fn tuples_are_padded(rt: HostRuntime) -> Result<(), Fail> {
    let alloc = rt.alloc();
    let names = Names::new(alloc);
    let args = [];
    let found = apply(alloc, Filter::Empty, names.count(), &args)?;
    assert_eq!(rt; found.len(), 1);
    let mut copy = found.get(0).copy(alloc)?;
    copy.pad(3)?;
    assert_eq!(rt; copy.len(), 1);
    assert!(rt; matches!(copy.get(0), Flow::Store(store) if store.len() == 3));
    Ok(())
}
