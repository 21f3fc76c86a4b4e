//! Texts of definitions and their answers.
ghost use Rattle.std.specs.Prelude.{◌-◌, ◌^◌, ◌<◌, length};

use crate::{DefFault, Places, Which, print_def, read_def};
use sk_base::{NoMemory, Place};
use sk_lex::LexError;
use std::alloc::Global;
use std::test::Fail;

const MINI: &[u8] = b"skel 1
sort expr
con num : expr(number)
con plus : expr(expr, expr)
hook eval() expr -> (int)
rule eval num(n) () { lit(n) -> (v) } -> (v)
rule eval plus(a, b) () {
  eval() a -> (x)
  eval() b -> (y)
  add(x, y) -> (z)
} -> (z)
";

const CUT: &[u8] = b"skel 1
sort expr
con num : expr(number)
con plus : expr(expr, expr)
hook eval() expr -> (int)
rule eval num(n) () { lit(n) -> (v) } -> (v)
rule eval plus(a, b) () {
  eval() a -> (x)
  eval() b -> (y)
  add(x, y) ->";

const MINI_PRINTED: &[u8] = b"skel 1
sort expr
con num : expr(number)
con plus : expr(expr, expr)
hook eval() expr -> (int)
rule eval num(n) () {
  lit(n) -> (v)
} -> (v)
rule eval plus(a, b) () {
  eval() a -> (x)
  eval() b -> (y)
  add(x, y) -> (z)
} -> (z)
";

const LOOP: &[u8] = b"skel 1
sort bexp
sort stmt
con none : bexp(name)
con while : stmt(bexp, stmt)
hook test(store) bexp -> (bool)
hook exec(store) stmt -> (store)
rule exec while(c, b) (s) {
  test(s) c -> (k)
  either {
    is_true(k) -> ()
    either {
      exec(s) b -> (s1)
    } or {
      keep_store(s) -> (s1)
    } with (s1)
    exec(s1) self -> (t)
  } or {
    is_false(k) -> ()
    keep_store(s) -> (t)
  } with (t)
} -> (t)
";

const RULE: &[u8] = b"skel 1
sort t
con c : t()
hook go() t -> ()
rule go c() () {
";

const ABOVE: &[u8] = b"skel 1
sort t
con c : t()
hook go() t -> ()
";

/// Lists on line 5: what stands before, an entry, what stands after, how many may stand, the column of one more.
const LISTS: [(&[u8], &[u8], &[u8], u8, u32, Which); 3] = [
    (b"con d : t(", b"number", b")", 8, 75, Which::Arguments),
    (b"hook h(", b"int", b") t -> ()", 4, 28, Which::Flows),
    (b"hook h() t -> (", b"int", b")", 4, 36, Which::Flows),
];

/// Lists of variables on line 5: what stands before and after, and the column of the ninth.
const VARIABLES: [(&[u8], &[u8], u32); 6] = [
    (b"rule go c(", b") () { } -> ()", 35),
    (b"rule go c() (", b") { } -> ()", 38),
    (b"rule go c() () { } -> (", b")", 48),
    (b"rule go c() () { add(", b") -> () } -> ()", 46),
    (b"rule go c() () { add() -> (", b") } -> ()", 52),
    (
        b"rule go c() () { either { } or { } with (",
        b") } -> ()",
        66,
    ),
];

/// Lines, a name for each `#`: what stands above, the line, what stands below, how many may stand, the place of one more.
const LINES: [(&[u8], &[u8], &[u8], u8, (u32, u32), Which); 5] = [
    (b"skel 1\n", b"sort x#\n", b"", 16, (18, 6), Which::Sorts),
    (
        b"skel 1\nsort t\n",
        b"con x# : t()\n",
        b"",
        128,
        (131, 5),
        Which::Constructors,
    ),
    (
        b"skel 1\nsort t\n",
        b"hook x#() t -> ()\n",
        b"",
        8,
        (11, 6),
        Which::Hooks,
    ),
    (
        RULE,
        b"zero() -> (x#, y#)\n",
        b"} -> ()\n",
        32,
        (38, 12),
        Which::Variables,
    ),
    (
        b"skel 1\nsort t\ncon c : t()\nhook go() t -> ()\nrule go c() () { either {\n",
        b"zero() -> (a)\n",
        b"} or { } with () } -> ()\n",
        63,
        (69, 1),
        Which::Bones,
    ),
];

/// A text with repeated lines in it.
fn repeated(
    alloc: Global,
    times: usize,
    opening: &[u8],
    closing: &[u8],
) -> Result<Vec<u8>, NoMemory> {
    let mut text = Vec::from_slice(alloc, RULE)?;
    for _ in 0..times {
        text.extend_from_slice(opening)?;
    }
    for _ in 0..times {
        text.extend_from_slice(closing)?;
    }
    text.extend_from_slice(b"} -> ()\n")?;
    Ok(text)
}

/// Whether a definition is printed so.
fn prints(alloc: Global, text: &[u8], canonical: &[u8]) -> Result<bool, DefFault>
    requires { length text.now < 2 ^ 32 - 1 }
{
    let printed = print_def(alloc, &read_def(alloc, text)?.def)?;
    Ok(printed.as_slice() == canonical)
}

/// The place of a part of a rule, if there is one.
fn part(places: &Places, rule: usize, part: usize) -> Option<Place> {
    places
        .rules
        .as_slice()
        .get(rule)?
        .as_slice()
        .get(part)
        .copied()
}

/// The sizes of a definition's lists and three of its places, or its fault.
fn read(alloc: Global, text: &[u8]) -> Result<([usize; 4], [Option<Place>; 3]), DefFault>
    requires { length text.now < 2 ^ 32 - 1 }
{
    let source = read_def(alloc, text)?;
    let sizes = [
        source.def.sorts.len(),
        source.def.cons.len(),
        source.def.hooks.len(),
        source.def.rules.len(),
    ];
    let places = [
        source.places.hooks.as_slice().first().copied(),
        part(&source.places, 1, 0),
        part(&source.places, 1, 4),
    ];
    Ok((sizes, places))
}

/// The fault of a rule with repeated lines, which are few.
fn fault(alloc: Global, times: usize, opening: &[u8], closing: &[u8]) -> Option<DefFault> {
    let text = repeated(alloc, times, opening, closing).ok()?;
    if text.len() >= 10_000 {
        return None;
    }
    read_def(alloc, text.as_slice()).err()
}

fn at(line: u32, column: u32) -> Place {
    Place { line, column }
}

/// Entries in a row, and what stands round them.
#[derive(Clone, Copy)]
struct Row {
    above: &'static [u8],
    before: &'static [u8],
    entry: &'static [u8],
    between: &'static [u8],
    after: &'static [u8],
}

/// A list on line 5.
fn list(before: &'static [u8], entry: &'static [u8], after: &'static [u8]) -> Row {
    Row {
        above: ABOVE,
        before,
        entry,
        between: b", ",
        after,
    }
}

/// Appends an entry, with two letters of its own for each `#`.
fn put_entry(text: &mut Vec<u8>, entry: &[u8], number: u8) -> Result<(), NoMemory> {
    for byte in entry {
        if *byte == b'#' {
            text.push(b'a' + number / 16)?;
            text.push(b'a' + number % 16)?;
        } else {
            text.push(*byte)?;
        }
    }
    Ok(())
}

/// The text with so many entries.
fn with_entries(alloc: Global, row: Row, count: u8) -> Result<Vec<u8>, NoMemory> {
    let mut text = Vec::from_slice(alloc, row.above)?;
    text.extend_from_slice(row.before)?;
    for number in 0..count {
        if number > 0 {
            text.extend_from_slice(row.between)?;
        }
        put_entry(&mut text, row.entry, number)?;
    }
    text.extend_from_slice(row.after)?;
    Ok(text)
}

/// What is read of so many entries, which are few.
fn answer(alloc: Global, row: Row, count: u8) -> Result<(), DefFault> {
    let text = with_entries(alloc, row, count)?;
    if text.len() >= 10_000 {
        return Err(DefFault::NoMemory);
    }
    read_def(alloc, text.as_slice())?;
    Ok(())
}

/// What is read of the most entries and of one more.
fn around(alloc: Global, row: Row, most: u8) -> [Result<(), DefFault>; 2] {
    [
        answer(alloc, row, most),
        answer(alloc, row, most.saturating_add(1)),
    ]
}

/// What is to be read: the most entries, and a fault of one more.
fn up_to(line: u32, column: u32, which: Which) -> [Result<(), DefFault>; 2] {
    [Ok(()), Err(DefFault::TooMany(at(line, column), which))]
}

#[test]
fn reads_a_definition(rt: HostRuntime) -> Result<(), Fail> {
    assert_eq!(rt;
        read(rt.alloc(), MINI),
        Ok((
            [1, 2, 1, 2],
            [Some(at(5, 1)), Some(at(7, 1)), Some(at(11, 3))]
        ))
    );
    Ok(())
}

#[test]
fn refuses_with_places(rt: HostRuntime) -> Result<(), Fail> {
    let alloc = rt.alloc();
    let refused: [(&[u8], DefFault); 10] = [
        (CUT, DefFault::Unexpected(at(10, 15))),
        (b"", DefFault::Unexpected(at(1, 1))),
        (
            b"skel 9223372036854775808\nsort expr\n",
            DefFault::Lex(LexError::NumberTooLarge, at(1, 6)),
        ),
        (b"skel 1\nsort sort\n", DefFault::Unexpected(at(2, 6))),
        (b"skel 1\nsort int\n", DefFault::Duplicate(at(2, 6))),
        (
            b"skel 1\nsort t\ncon c : t()\nhook add() t -> (int)\n",
            DefFault::Duplicate(at(4, 6)),
        ),
        (
            b"skel 1\nsort expr\ncon num : expr(number)\ncon plus : expr(exp, expr)\n",
            DefFault::Unknown(at(4, 17)),
        ),
        (
            b"skel 1 %\nsort expr\n",
            DefFault::Lex(LexError::BadChar, at(1, 8)),
        ),
        (
            b"skel 1\nsort expr\ncon num : expr(number)\xff\n",
            DefFault::Lex(LexError::BadUtf8, at(3, 23)),
        ),
        (
            b"skel 1\nsort t\nhook h(int, int, int, int, int) t -> ()\n",
            DefFault::TooMany(at(3, 28), Which::Flows),
        ),
    ];
    for (text, fault) in refused {
        assert_eq!(rt; read(alloc, text), Err(fault));
    }
    Ok(())
}

#[test]
fn prints_and_counts(rt: HostRuntime) -> Result<(), Fail> {
    let alloc = rt.alloc();
    assert_eq!(rt; prints(alloc, MINI, MINI_PRINTED), Ok(true));
    assert_eq!(rt; prints(alloc, LOOP, LOOP), Ok(true));
    assert_eq!(rt; fault(alloc, 64, b"zero() -> (a)\n", b""), None);
    assert_eq!(rt;
        fault(alloc, 65, b"zero() -> (a)\n", b""),
        Some(DefFault::TooMany(at(70, 1), Which::Bones))
    );
    assert_eq!(rt; fault(alloc, 8, b"either {\n", b"} or { } with ()\n"), None);
    assert_eq!(rt;
        fault(alloc, 9, b"either {\n", b"} or { } with ()\n"),
        Some(DefFault::TooMany(at(14, 1), Which::Nesting))
    );
    Ok(())
}

#[test]
fn lists_have_limits(rt: HostRuntime) -> Result<(), Fail> {
    let alloc = rt.alloc();
    for (before, entry, after, most, column, which) in LISTS {
        let row = list(before, entry, after);
        assert_eq!(rt; around(alloc, row, most), up_to(5, column, which));
    }
    for (before, after, column) in VARIABLES {
        let row = list(before, b"v", after);
        assert_eq!(rt; around(alloc, row, 8), up_to(5, column, Which::Arguments));
    }
    Ok(())
}

#[test]
fn lines_have_limits(rt: HostRuntime) -> Result<(), Fail> {
    let alloc = rt.alloc();
    for (above, entry, after, most, (line, column), which) in LINES {
        let row = Row {
            above,
            before: b"",
            entry,
            between: b"",
            after,
        };
        assert_eq!(rt; around(alloc, row, most), up_to(line, column, which));
    }
    Ok(())
}

#[test]
fn branches_have_a_limit(rt: HostRuntime) -> Result<(), Fail> {
    let alloc = rt.alloc();
    let row = Row {
        above: RULE,
        before: b"either ",
        entry: b"{ }",
        between: b" or ",
        after: b" with ()\n} -> ()\n",
    };
    assert_eq!(rt; around(alloc, row, 8), up_to(6, 64, Which::Branches));
    Ok(())
}
