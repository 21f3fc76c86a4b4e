//! Answers of a table over signs that has two triples of one key.
use sk_abswalk::{is_covered, table_answer};
use sk_base::{NoMemory, Seq};
use sk_def::HookId;
use sk_lattice::{AbsFlow, AbsTuple};
use sk_sign::Sign;
use sk_table::{Cover, Table, Triple};
use std::alloc::Global;
use std::test::Fail;

const POS: Sign = Sign {
    negative: false,
    zero: false,
    positive: true,
};

const ZERO: Sign = Sign {
    negative: false,
    zero: true,
    positive: false,
};

const ANY: Sign = Sign {
    negative: true,
    zero: true,
    positive: true,
};

/// The tuple of one sign.
fn tuple(alloc: Global, sign: Sign) -> Result<AbsTuple<Sign>, NoMemory> {
    let mut tuple = AbsTuple::new(alloc);
    if sign.negative || sign.zero || sign.positive {
        tuple.push(AbsFlow::Int(sign))?;
    }
    Ok(tuple)
}

/// From inputs above zero the hook ends above zero, and from any it ends anywhere.
fn table(alloc: Global) -> Result<Table<Sign>, NoMemory> {
    let mut table = Seq::new(alloc);
    for sign in [POS, ANY] {
        table.push(Triple {
            hook: HookId(1),
            point: 1,
            ins: tuple(alloc, sign)?,
            outs: Some(tuple(alloc, sign)?),
        })?;
    }
    Ok(table)
}

/// A call of the hook at a point.
fn call(alloc: Global, point: u16, sign: Sign) -> Result<Cover<Sign>, NoMemory> {
    Ok(Cover {
        hook: HookId(1),
        point,
        ins: tuple(alloc, sign)?,
    })
}

#[test]
fn an_answer_is_the_meet_of_all_above(rt: HostRuntime) -> Result<(), Fail> {
    let alloc = rt.alloc();
    let table = table(alloc)?;
    for (sign, expected) in [(POS, POS), (ZERO, ANY)] {
        let call = call(alloc, 1, sign)?;
        let expected = tuple(alloc, expected)?;
        assert!(rt; is_covered(&table, &call));
        match table_answer(alloc, &table, &call)? {
            Some(Some(outs)) => assert!(rt; outs.leq(&expected) && expected.leq(&outs)),
            _ => assert!(rt; false),
        }
    }
    let elsewhere = call(alloc, 2, POS)?;
    assert!(rt; !is_covered(&table, &elsewhere));
    assert!(rt; table_answer(alloc, &table, &elsewhere)?.is_none());
    Ok(())
}
