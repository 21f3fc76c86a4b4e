//! The arguments of filters.
ghost use Rattle.std.specs.Prelude.{◌≡◌, ◌∷◌, []};
ghost use Rattle.std.specs.Option.{option_map, option_copied};
ghost use Rattle.sk_filter.specs.Arguments.{the_number, the_int, the_ints, the_bool, the_bools, the_val, the_store, the_cell, the_cell_and_val};

use sk_value::{Flow, Store, Value};

/// What a filter is given: a leaf of the program, or a value that flows.
#[derive(Drop)]
pub enum Arg {
    Number(i64),
    Name(u8),
    Flow(Flow),
}

/// The number that is the one argument.
pub(crate) fn the_number(args: &[Arg]) -> Option<i64>
    ensures { result ≡ the_number args.now }
{
    match args {
        [Arg::Number(number)] => Some(*number),
        _ => None,
    }
}

/// The int that is the one argument.
pub(crate) fn the_int(args: &[Arg]) -> Option<i64>
    ensures { result ≡ the_int args.now }
{
    match args {
        [Arg::Flow(Flow::Int(number))] => Some(*number),
        _ => None,
    }
}

/// The two ints that are the arguments.
pub(crate) fn the_ints(args: &[Arg]) -> Option<(i64, i64)>
    ensures { result ≡ the_ints args.now }
{
    match args {
        [Arg::Flow(Flow::Int(a)), Arg::Flow(Flow::Int(b))] => Some((*a, *b)),
        _ => None,
    }
}

/// The truth value that is the one argument.
pub(crate) fn the_bool(args: &[Arg]) -> Option<bool>
    ensures { result ≡ the_bool args.now }
{
    match args {
        [Arg::Flow(Flow::Bool(truth))] => Some(*truth),
        _ => None,
    }
}

/// The two truth values that are the arguments.
pub(crate) fn the_bools(args: &[Arg]) -> Option<(bool, bool)>
    ensures { result ≡ the_bools args.now }
{
    match args {
        [Arg::Flow(Flow::Bool(a)), Arg::Flow(Flow::Bool(b))] => Some((*a, *b)),
        _ => None,
    }
}

/// The val that is the one argument.
pub(crate) fn the_val(args: &[Arg]) -> Option<Value>
    ensures { result ≡ the_val args.now }
{
    match args {
        [Arg::Flow(Flow::Val(value))] => Some(*value),
        _ => None,
    }
}

/// The store that is the one argument.
pub(crate) fn the_store(args: &[Arg]) -> Option<&Store>
    ensures { option_copied result ≡ the_store args.now }
{
    match args {
        [Arg::Flow(Flow::Store(store))] => Some(store),
        _ => None,
    }
}

/// The store and the name of it that are the arguments.
pub(crate) fn the_cell(args: &[Arg]) -> Option<(&Store, u8)>
    ensures { option_map (λ cell. (cell.0.now, cell.1)) result ≡ the_cell args.now }
{
    match args {
        [Arg::Flow(Flow::Store(store)), Arg::Name(name)] => Some((store, *name)),
        _ => None,
    }
}

/// The store, the name of it and the value that are the arguments.
pub(crate) fn the_cell_and_val(args: &[Arg]) -> Option<(&Store, u8, Value)>
    ensures { option_map (λ cell. (cell.0.now, cell.1, cell.2)) result ≡ the_cell_and_val args.now }
{
    match args {
        [
            Arg::Flow(Flow::Store(store)),
            Arg::Name(name),
            Arg::Flow(Flow::Val(value)),
        ] => { Some((store, *name, *value)) }
        _ => None,
    }
}
