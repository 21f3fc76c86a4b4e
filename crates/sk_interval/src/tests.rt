//! Worked values of the calls on intervals.

ghost use Rattle.std.specs.Prelude.{◌+◌, ◌^◌, ◌<◌, length};

use crate::Interval;
use sk_base::NoMemory;
use sk_lattice::{Arith, Compare, NumDom, Refine, Thresholds};
use sk_lex::tokens;
use std::alloc::Global;
use std::test::Fail;

fn range(low: i64, high: i64) -> Interval {
    Interval::of(low).join(Interval::of(high))
}

/// The element whose text this is.
fn read<D: NumDom>(alloc: Global, text: &[u8]) -> Option<D>
    requires { length text.now + 1 < 2 ^ 32 }
{
    let tokens = tokens(alloc, text).ok()?;
    D::take_text(text, &tokens, 0).ok().map(|taken| taken.0)
}

/// The place of the token that an element's text can't have.
fn fault<D: NumDom>(alloc: Global, text: &[u8]) -> Option<usize>
    requires { length text.now + 1 < 2 ^ 32 }
{
    let tokens = tokens(alloc, text).ok()?;
    D::take_text(text, &tokens, 0).err()
}

fn text_of<D: NumDom>(alloc: Global, element: D) -> Result<Vec<u8>, NoMemory> {
    let mut out = Vec::new(alloc);
    element.put_text(&mut out)?;
    Ok(out)
}

#[test]
fn worked_operations(rt: HostRuntime) {
    let top = Interval::of(i64::MAX);
    assert_eq!(rt;
        Interval::arith(Arith::Mul, range(-3, 2), range(-5, 4)),
        range(-12, 15)
    );
    assert_eq!(rt;
        Interval::arith(Arith::Div, range(7, 9), range(-2, 2)),
        range(-9, 9)
    );
    assert_eq!(rt;
        Interval::arith(Arith::Rem, range(-7, 20), range(3, 5)),
        range(-4, 4)
    );
    assert_eq!(rt;
        Interval::arith(Arith::Add, top, Interval::of(1)),
        Interval::Empty
    );
    assert_eq!(rt;
        Interval::arith(Arith::Pick, range(0, 100), range(10, 200)),
        range(0, 163)
    );
    assert_eq!(rt; Interval::of(i64::MIN).neg(), Interval::Empty);
    let (left, right) = Interval::refine(Refine::Below, range(0, i64::MAX), range(10, 10));
    assert_eq!(rt; left, range(0, 9));
    assert_eq!(rt; right, range(10, 10));
    let less = Interval::compare(Compare::Lt, range(0, 3), range(4, 9));
    assert!(rt; less.has_true && !less.has_false);
    assert!(rt; Interval::any().holds(0) && !Interval::empty().holds(0));
    assert!(rt; range(0, 3).meet(range(4, 9)).is_empty() && range(0, 3).leq(range(0, 4)));
}

#[test]
fn marks_and_texts(rt: HostRuntime) -> Result<(), Fail> {
    let alloc = rt.alloc();
    let marks = Thresholds::from_literals(alloc, &[10, 1])?;
    let wide = range(0, 1).widen(range(0, 3), &marks);
    assert_eq!(rt; wide, range(0, 9));
    assert_eq!(rt; wide.widen(range(-2, 9), &marks), range(i64::MIN, 9));
    assert_eq!(rt; wide.rank(&marks), 5);
    assert_eq!(rt; Interval::Empty.rank(&marks), 19);
    assert!(rt; text_of(alloc, range(i64::MIN, 9))?.as_slice() == b"[min..9]".as_slice());
    assert!(rt; text_of(alloc, Interval::Empty)?.as_slice() == b"none".as_slice());
    assert_eq!(rt;
        read(alloc, b"[-9223372036854775808..007]"),
        Some(range(i64::MIN, 7))
    );
    assert_eq!(rt; read(alloc, b"[-5 .. max]"), Some(range(-5, i64::MAX)));
    assert_eq!(rt; read(alloc, b"none"), Some(Interval::Empty));
    assert_eq!(rt; fault::<Interval>(alloc, b"[3..2"), Some(3));
    assert_eq!(rt; Interval::domain_word(), "interval");
    Ok(())
}
