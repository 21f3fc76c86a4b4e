//! Programs of a small definition.
ghost use Rattle.std.specs.Prelude.{◌<◌, ◌≤◌, ◌+◌, ◌^◌, length, IfOk};

use super::*;
use sk_base::{Ident, Names, NoMemory, Seq};
use sk_def::{ArgSort, Con, Def, SortId};
use sk_lex::tokens;
use std::alloc::Global;

fn con(alloc: Global, name: &[u8], sort: u8, args: &[ArgSort]) -> Result<Con, NoMemory>
    requires some { 0 < length name.now }
    requires short { length name.now ≤ 64 }
{
    Ok(Con {
        name: Ident::of(alloc, name)?,
        sort: SortId(sort),
        args: Seq::from_slice(alloc, args)?,
    })
}

fn definition(alloc: Global) -> Result<Def, NoMemory>
    ensures { IfOk result (λ def. length def.cons ≤ 128) }
{
    let expr = ArgSort::Term(SortId(0));
    let mut cons = Seq::new(alloc);
    cons.push(con(alloc, b"num", 0, &[ArgSort::Number])?)?;
    cons.push(con(alloc, b"plus", 0, &[expr, expr])?)?;
    cons.push(con(alloc, b"set", 1, &[ArgSort::Name, expr, ArgSort::Number])?)?;
    cons.push(con(alloc, b"skip", 1, &[])?)?;
    Ok(Def {
        sorts: Seq::new(alloc),
        cons,
        hooks: Seq::new(alloc),
        rules: Seq::new(alloc),
    })
}

fn read(alloc: Global, text: &[u8]) -> Result<Arena, TermFault> {
    let Ok(def) = definition(alloc) else {
        return Err(TermFault::NoMemory);
    };
    if text.len() > 1_000_000 {
        return Err(TermFault::NoMemory);
    }
    let Ok(tokens) = tokens(alloc, text) else {
        return Err(TermFault::NoMemory);
    };
    let mut names = Names::new(alloc);
    let (arena, _) = read_term(alloc, &def, text, tokens.as_slice(), 0, &mut names)?;
    Ok(arena)
}

/// A sum of ones, nested so deep.
fn nested(alloc: Global, depth: usize) -> Result<Vec<u8>, NoMemory> {
    let mut text = Vec::new(alloc);
    for _ in 0..depth {
        text.extend_from_slice(b"plus(num(1), ")?;
    }
    text.extend_from_slice(b"num(1)")?;
    for _ in 0..depth {
        text.extend_from_slice(b")")?;
    }
    Ok(text)
}

/// Whether a program has these constructors, with their sorts.
fn has_points(arena: &Arena, points: &[(u8, u8)]) -> bool {
    if arena.count() != points.len() {
        return false;
    }
    for (point, (con, sort)) in points.iter().enumerate() {
        let at = point as u16;
        if arena.con_at(at).0 != *con || arena.sort_at(at).0 != *sort {
            return false;
        }
    }
    true
}

/// Whether a program's points have these entries.
fn has_entries(arena: &Arena, entries: &[(u16, usize, Child)]) -> bool {
    for (point, place, child) in entries {
        if arena.entry(*point, *place) != Some(*child) {
            return false;
        }
    }
    true
}

/// The first of these texts that isn't refused so.
fn not_refused(alloc: Global, texts: &[(&[u8], TermError, usize)]) -> Option<usize> {
    for (line, (text, error, place)) in texts.iter().enumerate() {
        if read(alloc, text).err() != Some(TermFault::Bad(*error, *place)) {
            return Some(line);
        }
    }
    None
}

/// Whether a text is a program with these points, entries, number leaves and number of names.
fn is_read(alloc: Global, text: &[u8]) -> Result<bool, TermFault> {
    let mut arena = read(alloc, text)?;
    let names = arena.names();
    arena.set_names(names);
    let literals = arena.literals(alloc)?;
    Ok(
        names == 1
            && literals.as_slice() == [1, -2, 3].as_slice()
            && has_points(&arena, &[(2, 1), (1, 0), (0, 0), (0, 0)])
            && has_entries(
                &arena,
                &[
                    (0, 0, Child::Name(0)),
                    (0, 1, Child::Point(1)),
                    (1, 1, Child::Point(3)),
                    (3, 0, Child::Number(-2)),
                ],
            ),
    )
}

/// How many points a sum has that is nested so deep.
fn deep_count(alloc: Global, depth: usize) -> Result<usize, TermFault> {
    let arena = read(alloc, nested(alloc, depth)?.as_slice())?;
    Ok(arena.count())
}

const REFUSED: [(&[u8], TermError, usize); 8] = [
    (b"set(x, set(x, num(1)))", TermError::WrongSort, 4),
    (b"set(x, nil())", TermError::UnknownConstructor, 4),
    (b"plus(num(1))", TermError::WrongCount, 6),
    (b"plus(num(1), )", TermError::Unexpected, 7),
    (b"skip(, ", TermError::Unexpected, 2),
    (b"num(1, 2)", TermError::WrongCount, 3),
    (b"num(x)", TermError::Unexpected, 2),
    (b"plus(num(1),", TermError::Unexpected, 7),
];

#[test]
fn reads_programs(rt: HostRuntime) {
    let alloc = rt.alloc();
    assert_eq!(rt;
        is_read(alloc, b"set(x, plus(num(1), num(-2)), 3) skip()"),
        Ok(true)
    );
    assert_eq!(rt; not_refused(alloc, &REFUSED), None);
    assert_eq!(rt; deep_count(alloc, 2047), Ok(4095));
    assert_eq!(rt;
        deep_count(alloc, 2048),
        Err(TermFault::Bad(TermError::TooManyPoints, 14336))
    );
}
