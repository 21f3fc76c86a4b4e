//! Worked values of the calls on tuples over signs.

ghost use Rattle.std.specs.Prelude.{◌≡◌, ◌+◌, ◌^◌, ◌<◌, [], ◌∷◌, length, IsTrue, IfOk};
ghost use Rattle.sk_lattice.specs.Empty.{flow_is_proper};
ghost use Rattle.sk_lattice.specs.Order.{tuples_fit};
ghost use Rattle.sk_sign.specs.Signs.{sign_domain};

use crate::Sign;
use sk_base::{Ident, Names, NoMemory, Seq};
use sk_lattice::{AbsBool, AbsCell, AbsFlow, AbsStore, AbsTuple, AbsVal, NumDom, Thresholds};
use sk_lex::tokens;
use sk_value::{Flow, Tuple, Value};
use std::alloc::Global;
use std::test::Fail;

const NEGATIVE: Sign = Sign {
    negative: true,
    zero: false,
    positive: false,
};

const POSITIVE: Sign = Sign {
    negative: false,
    zero: false,
    positive: true,
};

fn one_number(alloc: Global, num: Sign) -> Result<AbsTuple<Sign>, NoMemory>
    requires { IsTrue (flow_is_proper sign_domain (AbsFlow.Int num)) }
    ensures { IfOk result (λ tuple. tuple ≡ AbsFlow.Int num ∷ []) }
{
    let mut tuple = AbsTuple::new(alloc);
    tuple.push(AbsFlow::Int(num))?;
    Ok(tuple)
}

/// The tuple of one store, whose one name may be unset or hold a positive number.
fn one_store(alloc: Global) -> Result<AbsTuple<Sign>, NoMemory> {
    let mut cells = Seq::new(alloc);
    cells.push(AbsCell {
        val: AbsVal {
            num: POSITIVE,
            truth: AbsBool {
                has_true: false,
                has_false: false,
            },
        },
        unset: true,
    })?;
    let mut tuple = AbsTuple::new(alloc);
    tuple.push(AbsFlow::Store(AbsStore::of(cells)))?;
    Ok(tuple)
}

/// The text of the tuple that is made of two tuples, after padding.
fn text_of<D: NumDom>(
    alloc: Global,
    names: &Names,
    tuple: &AbsTuple<D>,
) -> Result<Vec<u8>, NoMemory> {
    let mut padded = tuple.copy(alloc)?;
    padded.pad(names.count())?;
    let mut out = Vec::new(alloc);
    padded.put_text(names, &mut out)?;
    Ok(out)
}

/// The texts of the join and the widening, whether the first lies below the join, and whether both meet.
fn calls<D: NumDom>(
    alloc: Global,
    a: &AbsTuple<D>,
    b: &AbsTuple<D>,
    marks: &Thresholds,
) -> Result<(Vec<u8>, Vec<u8>, bool, bool), NoMemory>
    requires { IsTrue (tuples_fit a.now b.now) }
{
    let names = Names::new(alloc);
    let joined = a.join(alloc, b)?;
    let widened = a.widen(alloc, b, marks)?;
    Ok((
        text_of(alloc, &names, &joined)?,
        text_of(alloc, &names, &widened)?,
        a.leq(&joined),
        a.meet(alloc, b)?.is_some(),
    ))
}

fn reads<D: NumDom>(alloc: Global, text: &[u8]) -> Option<usize>
    requires { length text.now + 1 < 2 ^ 32 }
{
    let tokens = tokens(alloc, text).ok()?;
    D::take_text(text, &tokens, 0).ok().map(|taken| taken.1)
}

#[test]
fn calls_over_signs(rt: HostRuntime) -> Result<(), Fail> {
    let alloc = rt.alloc();
    let low = one_number(alloc, NEGATIVE)?;
    let high = one_number(alloc, POSITIVE)?;
    let marks = Thresholds::from_literals(alloc, &[10, 1])?;
    assert!(rt; marks.as_slice() == [i64::MIN, -1, 0, 1, 2, 9, 10, 11, i64::MAX].as_slice());
    let (joined, widened, below, meets) = calls(alloc, &low, &high, &marks)?;
    assert!(rt; joined.as_slice() == b"(nonzero)".as_slice());
    assert!(rt; widened.as_slice() == b"(nonzero)".as_slice());
    assert!(rt; below && !meets);
    let mut one = Tuple::new(alloc);
    one.push(Flow::Int(1))?;
    assert!(rt; high.covers(&one) && !low.covers(&one));
    assert_eq!(rt; reads::<Sign>(alloc, b"nonpos, zero"), Some(1));
    assert_eq!(rt; reads::<Sign>(alloc, b"negative"), None);
    assert_eq!(rt; Sign::domain_word(), "sign");
    Ok(())
}

#[test]
fn stores_over_signs(rt: HostRuntime) -> Result<(), Fail> {
    let alloc = rt.alloc();
    let mut names = Names::new(alloc);
    names.add(&Ident::of(alloc, b"x")?)?;
    names.add(&Ident::of(alloc, b"y")?)?;
    let tuple = one_store(alloc)?;
    assert!(rt; text_of(alloc, &names, &tuple)?.as_slice() == b"({x=pos/none?})".as_slice());
    let mut store = Seq::new(alloc);
    store.push(Some(Value::Int(1)))?;
    let mut state = Tuple::new(alloc);
    state.push(Flow::Store(store))?;
    assert!(rt; tuple.covers(&state));
    assert!(rt; tuple.leq(&tuple));
    assert!(rt; AbsCell::<Sign>::unset().val.is_empty());
    Ok(())
}
