//! What the operands of lines are in the positions of a key.
ghost use Rattle.std.specs.Prelude.{◌≡◌, ◌≤◌, length, true, IfOk, IfSome};
ghost use Rattle.std.specs.Option.{option_copied, option_and_then};
ghost use Rattle.sk_deriv.specs.Env.{all_of};
ghost use Rattle.sk_lattice.specs.Empty.{flow_is_proper};
ghost use Rattle.sk_absfilter.specs.Abstract.{abstract_result};
ghost use Rattle.sk_solve.specs.Solves.{flow_at, argument_at, operand_value};

use crate::PositionList;
use crate::slot::value_at;
use sk_absfilter::{AbsArg, abs_apply};
use sk_base::{NoMemory, Seq};
use sk_constr::{Operand, OperandList};
use sk_def::Filter;
use sk_lattice::{AbsFlow, AbsTuple, NumDom};
use std::alloc::Global;

/// An entry of a position.
fn flow_at<D: NumDom>(positions: &PositionList<D>, position: u8, entry: u8) -> Option<&AbsFlow<D>>
    ensures found { option_copied result ≡ flow_at positions.now position entry }
    ensures proper { IfSome result (λ flow. flow_is_proper D.domain flow.now ≡ true) }
{
    let Some(tuple) = value_at(positions, position) else {
        return None;
    };
    let entry = usize::from(entry);
    if entry < tuple.len() {
        Some(tuple.get(entry))
    } else {
        None
    }
}

/// The value that an operand is.
fn operand_value<D: NumDom>(positions: &PositionList<D>, operand: Operand) -> Option<&AbsFlow<D>>
    ensures found { option_copied result ≡ operand_value positions.now operand }
    ensures proper { IfSome result (λ flow. flow_is_proper D.domain flow.now ≡ true) }
{
    match operand {
        Operand::Number(_) | Operand::Name(_) => None,
        Operand::At { position, entry } => flow_at(positions, position, entry),
    }
}

/// The argument of a filter that an operand is.
fn argument_at<D: NumDom>(
    alloc: Global,
    positions: &PositionList<D>,
    operand: Operand,
) -> Result<Option<AbsArg<D>>, NoMemory>
    ensures { IfOk result (λ argument. argument ≡ argument_at positions.now operand) }
{
    Ok(match operand {
        Operand::Number(number) => Some(AbsArg::Number(number)),
        Operand::Name(name) => Some(AbsArg::Name(name)),
        Operand::At { position, entry } => match flow_at(positions, position, entry) {
            Some(flow) => Some(AbsArg::Flow(flow.copy(alloc)?)),
            None => None,
        },
    })
}

/// The arguments of a filter that operands are, where each is one.
fn arguments<D: NumDom>(
    alloc: Global,
    positions: &PositionList<D>,
    operands: &OperandList,
) -> Result<Option<Seq<AbsArg<D>>>, NoMemory>
    ensures { IfOk result (λ given. given ≡ all_of (argument_at positions.now) operands.now) }
{
    let mut given = Seq::new(alloc);
    for operand in operands.as_slice() {
        let Some(argument) = argument_at(alloc, positions, *operand)? else {
            return Ok(None);
        };
        given.push(argument)?;
    }
    Ok(Some(given))
}

/// The values that at most 8 operands are, where each is one.
pub(crate) fn values<D: NumDom>(
    alloc: Global,
    positions: &PositionList<D>,
    operands: &OperandList,
) -> Result<Option<AbsTuple<D>>, NoMemory>
    requires { length operands.now ≤ 8 }
    ensures { IfOk result (λ values. values ≡ all_of (operand_value positions.now) operands.now) }
{
    let mut values = AbsTuple::new(alloc);
    for operand in operands.as_slice() {
        let Some(flow) = operand_value(positions, *operand) else {
            return Ok(None);
        };
        values.push(flow.copy(alloc)?)?;
    }
    Ok(Some(values))
}

/// What a filter gives on the arguments that operands are, none where one isn't there.
pub(crate) fn filter_result<D: NumDom>(
    alloc: Global,
    filter: Filter,
    names: usize,
    positions: &PositionList<D>,
    operands: &OperandList,
) -> Result<Option<AbsTuple<D>>, NoMemory>
    ensures { IfOk result (λ outs.
        outs ≡ option_and_then (abstract_result D.domain filter names) (all_of (argument_at positions.now) operands.now)) }
{
    match arguments(alloc, positions, operands)? {
        Some(given) => abs_apply(alloc, filter, names, given.as_slice()),
        None => Ok(None),
    }
}
