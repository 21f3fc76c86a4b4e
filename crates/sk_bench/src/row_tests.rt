//! Worked rows, each by the words of its command and its files.
use crate::tests::{CHOICE, DEFINITION, JOB, words};
use crate::{Status, workbench};
use sk_base::{MemFiles, MemSink, NoMemory};
use std::alloc::{AllocError, Global};
use std::str;
use std::test::Fail;

/// How a command ends over these three files, and what it writes.
fn ran(
    alloc: Global,
    line: &str,
    definition: &str,
    job: &str,
    table: &str,
) -> Result<(Status, Vec<u8>), NoMemory> {
    let mut files = MemFiles::new(alloc, &[])?;
    files.hold("d", definition.as_bytes())?;
    files.hold("j", job.as_bytes())?;
    files.hold("t", table.as_bytes())?;
    let mut sink = MemSink::new(alloc, 2000, &[])?;
    let words = words(alloc, line)?;
    let status = workbench(alloc, words.as_slice(), &mut files, &mut sink);
    Ok((status, Vec::from_slice(alloc, sink.written())?))
}

/// Numbers, tests and statements, with two loops.
const WHILE: &str = "skel 1
sort aexp
sort bexp
sort stmt
con num : aexp(number)
con var : aexp(name)
con plus : aexp(aexp, aexp)
con minus : aexp(aexp, aexp)
con times : aexp(aexp, aexp)
con less : bexp(aexp, aexp)
con non : bexp(bexp)
con both : bexp(bexp, bexp)
con skip : stmt()
con set : stmt(name, aexp)
con seq : stmt(stmt, stmt)
con if : stmt(bexp, stmt, stmt)
con while : stmt(bexp, stmt)
con upto : stmt(name, aexp, stmt)
hook eval(store) aexp -> (int)
hook test(store) bexp -> (bool)
hook exec(store) stmt -> (store)
rule eval num(n) (s) { lit(n) -> (i) } -> (i)
rule eval var(x) (s) { read(s, x) -> (v) as_int(v) -> (i) } -> (i)
rule eval plus(a, b) (s) { eval(s) a -> (i) eval(s) b -> (j) add(i, j) -> (k) } -> (k)
rule eval minus(a, b) (s) { eval(s) a -> (i) eval(s) b -> (j) sub(i, j) -> (k) } -> (k)
rule eval times(a, b) (s) { eval(s) a -> (i) eval(s) b -> (j) mul(i, j) -> (k) } -> (k)
rule test less(a, b) (s) { eval(s) a -> (i) eval(s) b -> (j) lt(i, j) -> (c) } -> (c)
rule test non(a) (s) { test(s) a -> (c) not(c) -> (d) } -> (d)
rule test both(a, b) (s) { test(s) a -> (c) test(s) b -> (d) and(c, d) -> (e) } -> (e)
rule exec skip() (s) { } -> (s)
rule exec set(x, e) (s) { eval(s) e -> (i) of_int(i) -> (v) write(s, x, v) -> (t) } -> (t)
rule exec seq(a, b) (s) { exec(s) a -> (s1) exec(s1) b -> (t) } -> (t)
rule exec if(c, a, b) (s) {
  test(s) c -> (k)
  either { is_true(k) -> () exec(s) a -> (t) }
  or { is_false(k) -> () exec(s) b -> (t) } with (t)
} -> (t)
rule exec while(c, b) (s) {
  test(s) c -> (k)
  either { is_true(k) -> () exec(s) b -> (s1) exec(s1) self -> (t) }
  or { is_false(k) -> () keep_store(s) -> (t) } with (t)
} -> (t)
rule exec upto(x, e, b) (s) {
  read(s, x) -> (v)
  as_int(v) -> (i)
  eval(s) e -> (k)
  either {
    below(i, k) -> (i2, k2)
    of_int(i2) -> (w)
    write(s, x, w) -> (s1)
    exec(s1) b -> (s2)
    exec(s2) self -> (t)
  } or {
    at_least(i, k) -> (i3, k3)
    of_int(i3) -> (w3)
    write(s, x, w3) -> (t)
  } with (t)
} -> (t)
";

/// Statements that throw and catch.
const EXCEPTIONS: &str = "skel 1
sort aexp
sort stmt
con num : aexp(number)
con var : aexp(name)
con throw : stmt()
con set : stmt(name, aexp)
con seq : stmt(stmt, stmt)
con try : stmt(stmt, stmt)
hook eval(store) aexp -> (int)
hook exec(store) stmt -> (store, bool)
rule eval num(n) (s) { lit(n) -> (i) } -> (i)
rule eval var(x) (s) { read(s, x) -> (v) as_int(v) -> (i) } -> (i)
rule exec throw() (s) { yes() -> (f) } -> (s, f)
rule exec set(x, e) (s) {
  eval(s) e -> (i) of_int(i) -> (v) write(s, x, v) -> (t) no() -> (f)
} -> (t, f)
rule exec seq(a, b) (s) {
  exec(s) a -> (s1, f1)
  either { is_true(f1) -> () keep_store(s1) -> (t) keep_bool(f1) -> (f) }
  or { is_false(f1) -> () exec(s1) b -> (t, f) } with (t, f)
} -> (t, f)
rule exec try(a, b) (s) {
  exec(s) a -> (s1, f1)
  either { is_true(f1) -> () exec(s1) b -> (t, f) }
  or { is_false(f1) -> () keep_store(s1) -> (t) keep_bool(f1) -> (f) } with (t, f)
} -> (t, f)
";

/// A rule for all other constructors, which is none here.
const DEFAULT_RULE: &str = "skel 2
sort e
con num : e(number)
con nil : e()
con pair : e(e, e)
hook eval() e -> (int)
rule eval num(n) () { lit(n) -> (v) } -> (v)
rule eval else () { zero() -> (v) } -> (v)
";

/// A branch that lacks what the others give.
const BRANCH_LACKS: &str = "skel 1
sort expr
con num : expr(number)
con plus : expr(expr, expr)
hook eval() expr -> (int)
rule eval num(n) () { lit(n) -> (v) } -> (v)
rule eval plus(a, b) () {
  eval() a -> (x)
  either { eval() b -> (z) } or { zero() -> (w) } with (z)
  zero() -> (x)
} -> (z)
";

/// A bone behind a branch that gives a name again.
const REDEFINED: &str = "skel 1
sort expr
con num : expr(number)
con plus : expr(expr, expr)
hook eval() expr -> (int)
rule eval num(n) () { lit(n) -> (v) } -> (v)
rule eval plus(a, b) () {
  eval() a -> (x)
  either { eval() b -> (z) } or { zero() -> (z) } with (z)
  zero() -> (x)
} -> (z)
";

/// A hook with no rule at a constructor.
const NO_RULE: &str = "skel 1
sort expr
con num : expr(number)
con plus : expr(expr, expr)
hook eval() expr -> (int)
rule eval num(n) () { lit(n) -> (v) } -> (v)
";

/// Branches in one another, as deep as may be.
const NESTED: &str = "skel 1
sort t
con c : t()
hook go() t -> ()
rule go c() () {
either {
either {
either {
either {
either {
either {
either {
either {
} or { } with ()
} or { } with ()
} or { } with ()
} or { } with ()
} or { } with ()
} or { } with ()
} or { } with ()
} or { } with ()
} -> ()
";

/// One branch deeper.
const NESTED_DEEPER: &str = "skel 1
sort t
con c : t()
hook go() t -> ()
rule go c() () {
either {
either {
either {
either {
either {
either {
either {
either {
either {
} or { } with ()
} or { } with ()
} or { } with ()
} or { } with ()
} or { } with ()
} or { } with ()
} or { } with ()
} or { } with ()
} or { } with ()
} -> ()
";

/// Definitions, and what `check` writes of them.
const CHECKED: [(&str, &str, Status); 11] = [
    (
        WHILE,
        "good sorts 3 constructors 14 hooks 3 rules 14\n",
        Status::Done,
    ),
    (
        CHOICE,
        "good sorts 1 constructors 2 hooks 1 rules 2\n",
        Status::Done,
    ),
    (
        NESTED,
        "good sorts 1 constructors 1 hooks 1 rules 1\n",
        Status::Done,
    ),
    (
        NESTED_DEEPER,
        "refused definition 14:1 TooMany\n",
        Status::Definition,
    ),
    (
        BRANCH_LACKS,
        "refused definition 9:3 BranchLacks\n",
        Status::Definition,
    ),
    (
        REDEFINED,
        "refused definition 10:3 Redefined\n",
        Status::Definition,
    ),
    (
        NO_RULE,
        "refused definition 5:1 MissingRule\n",
        Status::Definition,
    ),
    (
        DEFAULT_RULE,
        "refused definition 1:6 Unexpected\n",
        Status::Definition,
    ),
    (
        "skel 2\nsort e\ncon num : e(number)\ncon nil : e()\ncon pair : e(e, e)\nhook eval() e -> (int)\nrule eval num(n) () { lit(n) -> (v) } -> (v)\nrule eval else () { zero() -> (v) } -> (v)\nrule eval else () { zero() -> (v) } -> (v)\n",
        "refused definition 1:6 Unexpected\n",
        Status::Definition,
    ),
    (
        "skel 1\nsort e\ncon num : e(number)\ncon nil : e()\ncon pair : e(e, e)\nhook eval() e -> (int)\nrule eval num(n) () { lit(n) -> (v) } -> (v)\nrule eval else () { zero() -> (v) } -> (v)\n",
        "refused definition 8:11 Unknown\n",
        Status::Definition,
    ),
    (
        "skel 2\nsort e\ncon num : e(number)\ncon nil : e()\ncon pair : e(e, e)\nhook eval() e -> (int)\nrule eval num(n) () { lit(n) -> (v) } -> (v)\n",
        "refused definition 1:6 Unexpected\n",
        Status::Definition,
    ),
];

#[test]
fn definitions_are_checked(rt: HostRuntime) -> Result<(), Fail> {
    let alloc = rt.alloc();
    for (definition, written, wanted) in CHECKED {
        let (status, bytes) = ran(alloc, "check d", definition, "", "")?;
        assert_eq!(rt;
            str::from_utf8(bytes.as_slice()),
            Ok(written),
            "{definition}"
        );
        assert_eq!(rt; status, wanted, "{definition}");
    }
    Ok(())
}

/// A rule with an input too many.
const INPUT_TOO_MANY: &str = "skel 1
sort expr
con num : expr(number)
con plus : expr(expr, expr)
hook eval() expr -> (int)
rule eval num(n) (m) { lit(n) -> (v) } -> (v)
rule eval plus(a, b) () {
  eval() a -> (x)
  eval() b -> (y)
  add(x, y) -> (z)
} -> (z)
";

/// A call of a hook at a value.
const CALL_OF_VALUE: &str = "skel 1
sort expr
con num : expr(number)
con plus : expr(expr, expr)
hook eval() expr -> (int)
rule eval num(n) () { lit(n) -> (v) } -> (v)
rule eval plus(a, b) () {
  eval() a -> (x)
  eval() x -> (y)
  add(x, y) -> (z)
} -> (z)
";

/// A filter of a name that nothing gives.
const UNDEFINED: &str = "skel 1
sort expr
con num : expr(number)
con plus : expr(expr, expr)
hook eval() expr -> (int)
rule eval num(n) () { lit(n) -> (v) } -> (v)
rule eval plus(a, b) () {
  eval() a -> (x)
  eval() b -> (y)
  add(x, w) -> (z)
} -> (z)
";

/// A rule with an output too many.
const OUTPUT_TOO_MANY: &str = "skel 1
sort expr
con num : expr(number)
con plus : expr(expr, expr)
hook eval() expr -> (int)
rule eval num(n) () { lit(n) -> (v) } -> (v)
rule eval plus(a, b) () {
  eval() a -> (x)
  eval() b -> (y)
  add(x, y) -> (z)
} -> (x, z)
";

/// A rule for a constructor that has one.
const RULE_TWICE: &str = "skel 1
sort expr
con num : expr(number)
con plus : expr(expr, expr)
hook eval() expr -> (int)
rule eval num(n) () { lit(n) -> (v) } -> (v)
rule eval plus(a, b) () {
  eval() a -> (x)
  eval() b -> (y)
  add(x, y) -> (z)
} -> (z)
rule eval num(n) () { lit(n) -> (v) } -> (v)
";

/// Definitions that are refused before a table is verified, and what is written of them.
const HOSTILE: [(&str, &str); 5] = [
    (INPUT_TOO_MANY, "refused definition 6:1 WrongCount\n"),
    (CALL_OF_VALUE, "refused definition 9:3 WrongSort\n"),
    (UNDEFINED, "refused definition 10:3 Undefined\n"),
    (OUTPUT_TOO_MANY, "refused definition 11:3 WrongCount\n"),
    (RULE_TWICE, "refused definition 12:1 DuplicateRule\n"),
];

#[test]
fn hostile_definitions_are_refused(rt: HostRuntime) -> Result<(), Fail> {
    let alloc = rt.alloc();
    for (definition, written) in HOSTILE {
        let (status, bytes) = ran(
            alloc,
            "verify d j sign t",
            definition,
            JOB,
            "table 1 sign\n",
        )?;
        assert_eq!(rt;
            str::from_utf8(bytes.as_slice()),
            Ok(written),
            "{definition}"
        );
        assert_eq!(rt; status, Status::Definition, "{definition}");
    }
    Ok(())
}

const TOSS: &str = "constraints 1 sign
cover go 0 ()
key go 0
0 -> 1 filter any_bool ()
1 -> 3 filter is_true (1.0)
3 -> 4 filter one ()
4 -> 2 join (4.0)
1 -> 5 filter is_false (1.0)
5 -> 6 filter one ()
6 -> 2 join (6.0)
2 -> out (2.0)
";

/// Commands over definitions and jobs, what they write, and how they end. No file is named `n`.
const COMMANDS: [(&str, &str, &str, &str, Status); 10] = [
    (
        "constrain d j sign",
        CHOICE,
        "job 1\nprogram toss()\ncover sign go 0 ()\n",
        TOSS,
        Status::Done,
    ),
    ("run d j 1", DEFINITION, JOB, "results 0\n", Status::Done),
    (
        "run d j 2",
        DEFINITION,
        "job 1\nprogram plus(num(1))\nstart eval 0 ()\ncover sign eval 0 ()\ncover interval eval 0 ()\n",
        "refused job 2:20 WrongCount\n",
        Status::Job,
    ),
    (
        "run d j 2",
        DEFINITION,
        "job 1\nprogram plus(num(1), num(2))\ncover sign eval 0 ()\ncover interval eval 0 ()\n",
        "refused job 5:1 NoStart\n",
        Status::Job,
    ),
    (
        "run d n 1",
        "",
        "",
        "refused definition 1:1 Unexpected\n",
        Status::Definition,
    ),
    ("check n", "", "", "", Status::ReadFault),
    ("run d n 1", DEFINITION, JOB, "", Status::ReadFault),
    ("verify d j sign n", DEFINITION, JOB, "", Status::ReadFault),
    (
        "run d j 1",
        DEFAULT_RULE,
        "job 1\nprogram pair(num(1), nil())\nstart eval 0 ()\n",
        "refused definition 1:6 Unexpected\n",
        Status::Definition,
    ),
    (
        "run d j 2",
        EXCEPTIONS,
        "job 1\nprogram seq(throw(), set(x, num(1)))\nstart exec 0 ({})\n",
        "result 1 ({}, true)\n0 exec 0 ({}) -> ({}, true)\n1 exec 1 ({}) -> ({}, true)\n1 pick 0\nresults 1\n",
        Status::Done,
    ),
];

#[test]
fn commands_end(rt: HostRuntime) -> Result<(), Fail> {
    let alloc = rt.alloc();
    for (line, definition, job, written, wanted) in COMMANDS {
        let (status, bytes) = ran(alloc, line, definition, job, "")?;
        assert_eq!(rt;
            str::from_utf8(bytes.as_slice()),
            Ok(written),
            "{line} {job}"
        );
        assert_eq!(rt; status, wanted, "{line} {job}");
    }
    Ok(())
}

/// A loop that counts to three.
const COUNT: &str = "job 1
program while(less(var(x), num(3)), set(x, plus(var(x), num(1))))
start exec 0 ({x=0})
";

/// What it does at depth 6.
const COUNTED: &str = "result 1 ({x=3})
0 exec 0 ({x=0}) -> ({x=3})
1 test 1 ({x=0}) -> (true)
2 eval 2 ({x=0}) -> (0)
2 eval 3 ({x=0}) -> (3)
1 pick 0
1 exec 4 ({x=0}) -> ({x=1})
2 eval 5 ({x=0}) -> (1)
3 eval 6 ({x=0}) -> (0)
3 eval 7 ({x=0}) -> (1)
1 exec 0 ({x=1}) -> ({x=3})
2 test 1 ({x=1}) -> (true)
3 eval 2 ({x=1}) -> (1)
3 eval 3 ({x=1}) -> (3)
2 pick 0
2 exec 4 ({x=1}) -> ({x=2})
3 eval 5 ({x=1}) -> (2)
4 eval 6 ({x=1}) -> (1)
4 eval 7 ({x=1}) -> (1)
2 exec 0 ({x=2}) -> ({x=3})
3 test 1 ({x=2}) -> (true)
4 eval 2 ({x=2}) -> (2)
4 eval 3 ({x=2}) -> (3)
3 pick 0
3 exec 4 ({x=2}) -> ({x=3})
4 eval 5 ({x=2}) -> (3)
5 eval 6 ({x=2}) -> (2)
5 eval 7 ({x=2}) -> (1)
3 exec 0 ({x=3}) -> ({x=3})
4 test 1 ({x=3}) -> (false)
5 eval 2 ({x=3}) -> (3)
5 eval 3 ({x=3}) -> (3)
4 pick 1
results 1
";

/// A loop from zero, as cover lines say it.
const LOOP: &str = "job 1
program while(less(var(x), num(3)), set(x, plus(var(x), num(1))))
cover sign exec 0 ({x=zero/none})
";

/// Its signs.
const LOOP_SIGNS: &str = "table 1 sign
exec 0 ({x=nonneg/none}) -> ({x=nonneg/none})
test 1 ({x=nonneg/none}) -> (any)
eval 2 ({x=nonneg/none}) -> (nonneg)
eval 3 ({x=nonneg/none}) -> (pos)
exec 4 ({x=nonneg/none}) -> ({x=pos/none})
eval 5 ({x=nonneg/none}) -> (pos)
eval 6 ({x=nonneg/none}) -> (nonneg)
eval 7 ({x=nonneg/none}) -> (pos)
";

/// A step from a number above zero.
const STEP: &str = "job 1
program set(x, plus(var(x), num(1)))
cover sign exec 0 ({x=pos/none})
";

/// Commands over `WHILE`, jobs and tables, and what they write.
const LOOPS: [(&str, &str, &str, &str, Status); 12] = [
    (
        "verify d j sign t",
        "job 1\nprogram skip()\n",
        "table 1 sign\n",
        "yes 0 triples\n",
        Status::Done,
    ),
    ("run d j 5", COUNT, "", "results 0\n", Status::Done),
    ("run d j 6", COUNT, "", COUNTED, Status::Done),
    (
        "run d j 64",
        "job 1\nprogram set(y, var(x))\nstart exec 0 ({})\ncover sign exec 0 ({x=pos/none?})\n",
        "",
        "results 0\n",
        Status::Done,
    ),
    (
        "run d j 1",
        "job 1\nprogram skip()\nstart exec 0 ({})\ncover sign exec 0 ({})\ncover sign exec 0 ({z=pos/none})\n",
        "",
        "result 1 ({})\n0 exec 0 ({}) -> ({})\nresults 1\n",
        Status::Done,
    ),
    (
        "verify d j sign t",
        LOOP,
        LOOP_SIGNS,
        "yes 8 triples\n",
        Status::Done,
    ),
    (
        "analyse d j sign",
        LOOP,
        LOOP_SIGNS,
        LOOP_SIGNS,
        Status::Done,
    ),
    ("solve d j sign", LOOP, LOOP_SIGNS, LOOP_SIGNS, Status::Done),
    (
        "verify d j sign t",
        STEP,
        "table 1 sign\nexec 0 ({x=pos/none}) -> ({x=pos/none})\neval 1 ({x=pos/none}) -> (pos)\neval 2 ({x=any/none}) -> (any)\neval 2 ({x=pos/none}) -> (pos)\neval 3 ({x=any/none}) -> (pos)\n",
        "yes 5 triples\n",
        Status::Done,
    ),
    (
        "verify d j sign t",
        STEP,
        "table 1 sign\nexec 0 ({x=pos/none}) -> ({x=pos/none})\neval 1 ({x=pos/none}) -> (pos)\neval 2 ({x=pos/none}) -> (pos)\neval 2 ({x=any/none}) -> (any)\neval 3 ({x=any/none}) -> (pos)\n",
        "yes 5 triples\n",
        Status::Done,
    ),
    (
        "verify d j sign t",
        STEP,
        "table 1 sign\nexec 0 ({x=pos/none}) -> ({x=pos/none})\neval 1 ({x=pos/none}) -> (pos)\neval 2 ({x=any/none}) -> (any)\neval 3 ({x=any/none}) -> (pos)\n",
        "no triple 2 larger (any)\n",
        Status::No,
    ),
    (
        "verify d j interval t",
        "job 1\nprogram upto(x, num(10), set(x, plus(var(x), num(1))))\ncover interval exec 0 ({x=[0..0]/none})\n",
        "table 1 interval\nexec 0 ({x=[0..10]/none}) -> ({x=[10..10]/none})\neval 1 ({x=[0..10]/none}) -> ([10..10])\nexec 2 ({x=[0..9]/none}) -> ({x=[1..10]/none})\neval 3 ({x=[0..9]/none}) -> ([1..10])\neval 4 ({x=[0..9]/none}) -> ([0..9])\neval 5 ({x=[0..9]/none}) -> ([1..1])\n",
        "yes 6 triples\n",
        Status::Done,
    ),
];

#[test]
fn loops_are_worked(rt: HostRuntime) -> Result<(), Fail> {
    let alloc = rt.alloc();
    for (line, job, table, written, wanted) in LOOPS {
        let (status, bytes) = ran(alloc, line, WHILE, job, table)?;
        assert_eq!(rt;
            str::from_utf8(bytes.as_slice()),
            Ok(written),
            "{line} {job}"
        );
        assert_eq!(rt; status, wanted, "{line} {job}");
    }
    Ok(())
}

/// A definition of a rule with sixty bones that give a name, and so many that give none.
fn bones(alloc: Global, count: u8) -> Result<String, AllocError> {
    let head = "skel 1\nsort t\ncon c : t()\nhook go() t -> ()\nrule go c() () {\n";
    let mut text = String::from_str(alloc, head)?;
    for number in 0..60 {
        text.push_str(format!(in alloc; "  zero() -> (v{number})\n")?.as_str())?;
    }
    for _ in 0..count {
        text.push_str("  is_zero(v0) -> ()\n")?;
    }
    text.push_str("} -> ()\n")?;
    Ok(text)
}

#[test]
fn bones_have_a_limit(rt: HostRuntime) -> Result<(), Fail> {
    let alloc = rt.alloc();
    for (count, written, wanted) in [
        (
            4,
            "good sorts 1 constructors 1 hooks 1 rules 1\n",
            Status::Done,
        ),
        (5, "refused definition 70:3 TooMany\n", Status::Definition),
    ] {
        let text = bones(alloc, count)?;
        let (status, bytes) = ran(alloc, "check d", text.as_str(), "", "")?;
        assert_eq!(rt; str::from_utf8(bytes.as_slice()), Ok(written), "{count}");
        assert_eq!(rt; status, wanted, "{count}");
    }
    Ok(())
}

/// A state of so many names, of which there is at least one.
fn state(alloc: Global, count: u8) -> Result<String, AllocError> {
    let mut text = String::from_str(alloc, "{x0=0")?;
    for number in 1..count {
        text.push_str(format!(in alloc; ", x{number}=0")?.as_str())?;
    }
    text.push_str("}")?;
    Ok(text)
}

/// How `run` ends at a start in this state, and what it writes.
fn ran_from(alloc: Global, state: &str) -> Result<(Status, Vec<u8>), NoMemory> {
    let job = format!(in alloc; "job 1\nprogram skip()\nstart exec 0 ({state})\n")?;
    ran(alloc, "run d j 1", WHILE, job.as_str(), "")
}

/// What it writes where the state is kept.
fn kept(alloc: Global, state: &str) -> Result<String, AllocError> {
    format!(in alloc; "result 1 ({state})\n0 exec 0 ({state}) -> ({state})\nresults 1\n")
}

#[test]
fn states_have_so_many_names(rt: HostRuntime) -> Result<(), Fail> {
    let alloc = rt.alloc();
    let state = state(alloc, 64)?;
    let wanted = kept(alloc, state.as_str())?;
    let (status, bytes) = ran_from(alloc, state.as_str())?;
    assert_eq!(rt; str::from_utf8(bytes.as_slice()), Ok(wanted.as_str()));
    assert_eq!(rt; status, Status::Done);
    Ok(())
}

#[test]
fn states_have_no_more_names(rt: HostRuntime) -> Result<(), Fail> {
    let alloc = rt.alloc();
    let state = state(alloc, 65)?;
    let wanted = "refused job 3:454 TooManyNames\n";
    let (status, bytes) = ran_from(alloc, state.as_str())?;
    assert_eq!(rt; str::from_utf8(bytes.as_slice()), Ok(wanted));
    assert_eq!(rt; status, Status::Job);
    Ok(())
}
