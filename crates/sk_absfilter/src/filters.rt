//! What each filter gives on abstract arguments.
ghost use Rattle.std.specs.Prelude.{◌≡◌, [], ◌∷◌, IfOk};
ghost use Rattle.std.specs.Option.{option_and_then};
ghost use Rattle.sk_base.specs.declared.flow.FlowSort.{FlowSort};
ghost use Rattle.sk_def.specs.declared.sorts.VarSort.{VarSort};
ghost use Rattle.sk_def.specs.Signatures.{parameters};
ghost use Rattle.sk_lattice.specs.declared.flow.AbsFlow.{AbsFlow};
ghost use Rattle.sk_absfilter.specs.declared.arg.AbsArg.{AbsArg};
ghost use Rattle.sk_absfilter.specs.Abstract.{abstract_result, raw_result, proper_tuple, numbers_alone, truths_alone};

use crate::AbsArg;
use crate::arg::{
    all_proper, the_bool, the_bools, the_cell, the_cell_and_val, the_int, the_ints, the_number,
    the_store, the_val,
};
use crate::cells::{cell_at, empty, keep, may_be_set, set_cell, write};
use crate::outcome::{number, one, passing, passing_pair, sides};
use crate::truths::{any_truth, both, either, negations, only};
use sk_base::NoMemory;
use sk_def::Filter;
use sk_lattice::{AbsBool, AbsCell, AbsFlow, AbsTuple, AbsVal, NumDom};
use sk_value::{Arith, Compare, Refine};
use std::alloc::Global;

/// What stands for the arguments where they have the sorts that are asked for, else none.
macro_rules! on {
    ($given:expr, $found:pat => $outcome:expr) => {
        match $given {
            Some($found) => $outcome,
            None => Ok(None),
        }
    };
}

/// What a filter gives on abstract arguments, over this number of names: a tuple that covers each of its results on
/// what they cover. There is none where an argument or a part of the tuple is empty, and where a filter that looks at its
/// arguments finds them of other sorts.
pub fn abs_apply<D: NumDom>(
    alloc: Global,
    filter: Filter,
    names: usize,
    args: &[AbsArg<D>],
) -> Result<Option<AbsTuple<D>>, NoMemory>
    ensures { IfOk result (λ outcome. outcome ≡ abstract_result D.domain filter names args.now) }
{
    if all_proper(args) {
        outcome(alloc, filter, names, args)
    } else {
        Ok(None)
    }
}

/// What a filter gives on arguments of which none is empty.
fn outcome<D: NumDom>(
    alloc: Global,
    filter: Filter,
    names: usize,
    args: &[AbsArg<D>],
) -> Result<Option<AbsTuple<D>>, NoMemory>
    ensures { IfOk result (λ outcome.
        outcome ≡ option_and_then (proper_tuple D.domain) (raw_result D.domain filter names args.now)) }
{
    match filter {
        Filter::Lit => on!(the_number(args), z => number(alloc, z)),
        Filter::Zero => number(alloc, 0),
        Filter::One => number(alloc, 1),
        Filter::Yes => one(alloc, AbsFlow::Bool(only(true))),
        Filter::No => one(alloc, AbsFlow::Bool(only(false))),
        Filter::Neg => on!(the_int(args), a => one(alloc, AbsFlow::Int(a.neg()))),
        Filter::Not => on!(the_bool(args), a => one(alloc, AbsFlow::Bool(negations(a)))),
        Filter::And => on!(the_bools(args), (a, b) => one(alloc, AbsFlow::Bool(both(a, b)))),
        Filter::Or => on!(the_bools(args), (a, b) => one(alloc, AbsFlow::Bool(either(a, b)))),
        Filter::IsTrue => on!(the_bool(args), a => passing(alloc, a.has_true)),
        Filter::IsFalse => on!(the_bool(args), a => passing(alloc, a.has_false)),
        Filter::IsZero => on!(the_int(args), a => passing(alloc, !a.meet(D::of(0)).is_empty())),
        Filter::NonZero =>
            on!(the_int(args), a => passing_pair(alloc, D::refine(Refine::Differ, a, D::of(0)))),
        Filter::IsPos =>
            on!(the_int(args), a => passing_pair(alloc, D::refine(Refine::Below, D::of(0), a))),
        Filter::IsNeg =>
            on!(the_int(args), a => passing_pair(alloc, D::refine(Refine::Below, a, D::of(0)))),
        Filter::OfInt => on!(the_int(args), a => one(alloc, AbsFlow::Val(numbers_alone(a)))),
        Filter::OfBool => on!(the_bool(args), a => one(alloc, AbsFlow::Val(truths_alone(a)))),
        Filter::AsInt => on!(the_val(args), val => one(alloc, AbsFlow::Int(val.num))),
        Filter::AsBool => on!(the_val(args), val => one(alloc, AbsFlow::Bool(val.truth))),
        Filter::Empty => empty(alloc, names),
        Filter::Read =>
            on!(the_cell(args), (cells, name) => one(alloc, AbsFlow::Val(cell_at(cells, name).val))),
        Filter::Write =>
            on!(the_cell_and_val(args), (cells, name, val) => write(alloc, cells, name, set_cell(val))),
        Filter::Forget =>
            on!(the_cell(args), (cells, name) => write(alloc, cells, name, AbsCell::unset())),
        Filter::Bound =>
            on!(the_cell(args), (cells, name) => one(alloc, AbsFlow::Bool(may_be_set(cell_at(cells, name))))),
        Filter::KeepInt => on!(the_int(args), a => one(alloc, AbsFlow::Int(a))),
        Filter::KeepBool => on!(the_bool(args), a => one(alloc, AbsFlow::Bool(a))),
        Filter::KeepVal => on!(the_val(args), val => one(alloc, AbsFlow::Val(val))),
        Filter::KeepStore => on!(the_store(args), store => keep(alloc, store)),
        Filter::AnyBool => one(alloc, AbsFlow::Bool(any_truth())),
        _ => on!(the_ints(args), (a, b) => on_ints(alloc, filter, a, b)),
    }
}

/// What a filter of two numbers gives.
fn on_ints<D: NumDom>(
    alloc: Global,
    filter: Filter,
    a: D,
    b: D,
) -> Result<Option<AbsTuple<D>>, NoMemory>
    requires of_two_numbers { parameters filter ≡ VarSort.Flow FlowSort.Int ∷ VarSort.Flow FlowSort.Int ∷ [] }
    ensures { IfOk result (λ outcome.
        outcome ≡ option_and_then (proper_tuple D.domain)
        (raw_result D.domain filter 0 (AbsArg.Flow (AbsFlow.Int a) ∷ AbsArg.Flow (AbsFlow.Int b) ∷ []))) }
{
    match filter {
        Filter::Add => one(alloc, AbsFlow::Int(D::arith(Arith::Add, a, b))),
        Filter::Sub => one(alloc, AbsFlow::Int(D::arith(Arith::Sub, a, b))),
        Filter::Mul => one(alloc, AbsFlow::Int(D::arith(Arith::Mul, a, b))),
        Filter::Div => one(alloc, AbsFlow::Int(D::arith(Arith::Div, a, b))),
        Filter::Rem => one(alloc, AbsFlow::Int(D::arith(Arith::Rem, a, b))),
        Filter::Lt => one(alloc, AbsFlow::Bool(D::compare(Compare::Lt, a, b))),
        Filter::Le => one(alloc, AbsFlow::Bool(D::compare(Compare::Le, a, b))),
        Filter::Eq => one(alloc, AbsFlow::Bool(D::compare(Compare::Eq, a, b))),
        Filter::Below => sides(alloc, D::refine(Refine::Below, a, b)),
        Filter::AtLeast => sides(alloc, D::refine(Refine::AtLeast, a, b)),
        Filter::Same => sides(alloc, D::refine(Refine::Same, a, b)),
        Filter::Differ => sides(alloc, D::refine(Refine::Differ, a, b)),
        Filter::Pick => one(alloc, AbsFlow::Int(D::arith(Arith::Pick, a, b))),
        _ => unreachable!(),
    }
}

/// The val of numbers, with no truth value.
fn numbers_alone<D: NumDom>(num: D) -> AbsVal<D>
    ensures { result ≡ numbers_alone num }
{
    AbsVal {
        num,
        truth: AbsBool {
            has_true: false,
            has_false: false,
        },
    }
}

/// The val of truth values, with no number.
fn truths_alone<D: NumDom>(truth: AbsBool) -> AbsVal<D>
    ensures { result ≡ truths_alone D.domain truth }
{
    AbsVal {
        num: D::empty(),
        truth,
    }
}
