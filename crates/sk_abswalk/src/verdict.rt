//! Verdicts on tables.
ghost use Rattle.sk_abswalk.specs.Verdict.{VerdictsAreRight};

use sk_def::HookId;
use sk_lattice::{AbsTuple, NumDom};

/// Why a triple isn't justified: its walk asks for a call that no triple of the table lies above, or it ends in outputs
/// that don't lie below the triple's.
#[derive(Drop)]
pub enum Why<D: NumDom> {
    Uncovered {
        hook: HookId,
        point: u16,
        args: AbsTuple<D>,
    },
    Larger {
        outs: AbsTuple<D>,
    },
}

/// What a check of a table finds. Triples and cover lines are numbered from 1.
#[derive(Drop)]
pub enum Verdict<D: NumDom> {
    Yes,
    Unjustified { triple: usize, why: Why<D> },
    CoverMissing { line: usize },
}

/// Over every domain, the verdict on a table is yes exactly where the table is accepted.
pub fn verdicts_are_right<D: NumDom>()
    ensures { VerdictsAreRight D.domain }
{}
