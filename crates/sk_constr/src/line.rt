//! The lines of the list of constraints.
use sk_base::Seq;
use sk_def::{Filter, FlowSorts, HookId};

/// An entry of a position, counted from 0. Position 0 of a key is its inputs, and position j the outputs of bone j.
#[derive(Clone, Copy, Debug, PartialEq, Eq)]
pub struct Place {
    pub position: u8,
    pub entry: u8,
}

/// What an argument is: a leaf of the program, or an entry of a position.
#[derive(Clone, Copy, Debug, PartialEq, Eq)]
pub enum Operand {
    Number(i64),
    Name(u8),
    At { position: u8, entry: u8 },
}

pub type OperandList = Seq<Operand>;

/// What a line asks for: the result of a filter, the outputs of a call, the variables at the end of a branch, or those
/// at the end of the rule.
#[derive(Drop)]
pub enum Part {
    Filter {
        to: u8,
        filter: Filter,
        args: OperandList,
    },
    Call {
        to: u8,
        hook: HookId,
        point: u16,
        args: OperandList,
    },
    Join {
        to: u8,
        vars: OperandList,
    },
    End {
        vars: OperandList,
    },
}

/// A line, with the position before what it is about.
#[derive(Drop)]
pub struct Line {
    pub from: u8,
    pub part: Part,
}

pub type LineList = Seq<Line>;

pub type SortsList = Seq<FlowSorts>;

/// The lines of a key, with the sorts of each of its positions, from 0, and those of its outputs.
#[derive(Drop)]
pub struct KeyLines {
    pub hook: HookId,
    pub point: u16,
    pub positions: SortsList,
    pub outputs: FlowSorts,
    pub lines: LineList,
}
