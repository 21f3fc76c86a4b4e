//! The numbers at which a widening may stop.

ghost use Rattle.std.specs.Prelude.{◌≡◌, ◌<◌, ◌^◌, ◌++◌, ◌∷◌, [], length, pos, ◌+ℤ◌, ◌-ℤ◌, IfOk, OnOk, Some, slice_get};
ghost use Rattle.sk_lattice.specs.Thresholds.{IsThresholds, AreMarksOf, all_marks, in_range, near, standard};

use sk_base::NoMemory;
use std::alloc::Global;
use std::marker::Model;

/// The thresholds of a program; contracts see the increasing list.
#[derive(Drop)]
pub struct Thresholds {
    marks: Vec<i64>,
}

impl Model for Thresholds {
    ghost use Rattle.std.specs.Prelude.{List, ℤ};
    ghost use Rattle.sk_lattice.specs.Thresholds.{IsThresholds};

    ghost Value = { List ℤ };

    ghost view = { λ t. t.marks.items };

    ghost invariant = { λ t. IsThresholds t.marks.items };
}

/// Puts the number before a literal, if there is one, at the end.
fn push_below(marks: &mut Vec<i64>, literal: &i64) -> Result<(), NoMemory>
    ensures { OnOk result (marks.new.items ≡ marks.old.items ++ in_range (literal.now -ℤ pos 1)) }
{
    if *literal > i64::MIN {
        marks.push(*literal - 1)?;
    }
    Ok(())
}

/// Puts a literal at the end.
fn push_literal(marks: &mut Vec<i64>, literal: &i64) -> Result<(), NoMemory>
    ensures { OnOk result (marks.new.items ≡ marks.old.items ++ in_range literal.now) }
{
    marks.push(*literal)?;
    Ok(())
}

/// Puts the number after a literal, if there is one, at the end.
fn push_above(marks: &mut Vec<i64>, literal: &i64) -> Result<(), NoMemory>
    ensures { OnOk result (marks.new.items ≡ marks.old.items ++ in_range (literal.now +ℤ pos 1)) }
{
    if *literal < i64::MAX {
        marks.push(*literal + 1)?;
    }
    Ok(())
}

/// Puts a literal and the numbers beside it at the end.
fn push_near(marks: &mut Vec<i64>, literal: &i64) -> Result<(), NoMemory>
    ensures { OnOk result (marks.new.items ≡ marks.old.items ++ near literal.now) }
{
    push_below(marks, literal)?;
    push_literal(marks, literal)?;
    push_above(marks, literal)?;
    Ok(())
}

/// The marks of every program.
fn standard_marks(alloc: Global) -> Result<Vec<i64>, NoMemory>
    ensures { IfOk result (λ marks. marks.items ≡ standard) }
{
    Ok(Vec::from_array(alloc, [i64::MIN, -1, 0, 1, i64::MAX])?)
}

/// The marks in the order of the literals, some of them twice.
fn unsorted_marks(alloc: Global, literals: &[i64]) -> Result<Vec<i64>, NoMemory>
    ensures { IfOk result (λ marks. marks.items ≡ all_marks literals.now) }
{
    let mut marks = standard_marks(alloc)?;
    for literal in literals {
        push_near(&mut marks, literal)?;
    }
    Ok(marks)
}

impl Thresholds {
    /// The marks of a program with these literals.
    pub fn from_literals(alloc: Global, literals: &[i64]) -> Result<Thresholds, NoMemory>
        requires { length literals.now < 2 ^ 30 }
        ensures { IfOk result (λ marks. AreMarksOf literals.now marks) }
    {
        let mut marks = unsorted_marks(alloc, literals)?;
        marks.sort_unstable();
        marks.dedup();
        Ok(Thresholds { marks })
    }

    /// They increase from the least number to the greatest.
    pub fn increase(&self)
        ensures { IsThresholds self.now }
    {
        let _marks = &self.marks;
    }

    /// The marks as a slice.
    pub fn as_slice(&self) -> &[i64]
        ensures { result.now ≡ self.now }
    {
        self.marks.as_slice()
    }

    /// How many marks there are.
    pub fn len(&self) -> usize
        ensures { result ≡ length self.now }
    {
        self.marks.len()
    }

    /// The mark at a place.
    pub fn get(&self, at: usize) -> &i64
        requires { at < length self.now }
        ensures { slice_get self.now at ≡ Some result.now }
    {
        &self.marks[at]
    }
}
