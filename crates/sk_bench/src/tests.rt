//! Runs over files and a sink in memory.
use crate::{Status, workbench};
use sk_base::{MemFiles, MemSink, NoMemory};
use std::alloc::Global;
use std::str;
use std::test::Fail;

pub(crate) const DEFINITION: &str = "skel 1
sort expr
con num : expr(number)
con plus : expr(expr, expr)
hook eval() expr -> (int)
rule eval num(n) () { lit(n) -> (v) } -> (v)
rule eval plus(a, b) () {
  eval() a -> (x)
  eval() b -> (y)
  add(x, y) -> (z)
} -> (z)
";

pub(crate) const JOB: &str = "job 1
program plus(num(1), num(2))
start eval 0 ()
cover sign eval 0 ()
cover interval eval 0 ()
";

const SUM: &str = "result 1 (3)
0 eval 0 () -> (3)
1 eval 1 () -> (1)
1 eval 2 () -> (2)
results 1
";

/// The words of a line.
pub(crate) fn words(alloc: Global, line: &str) -> Result<Vec<String>, NoMemory> {
    let mut words = Vec::new(alloc);
    for word in line.split_ascii_whitespace() {
        words.push(String::from_str(alloc, word)?)?;
    }
    Ok(words)
}

/// The two files, of whose calls this one is to fail, and one more that holds a text.
fn files_with(alloc: Global, failing: u64, text: &str) -> Result<MemFiles, NoMemory> {
    let mut files = MemFiles::new(alloc, &[failing])?;
    files.hold("d", DEFINITION.as_bytes())?;
    files.hold("j", JOB.as_bytes())?;
    files.hold("t", text.as_bytes())?;
    Ok(files)
}

fn files(alloc: Global, failing: u64) -> Result<MemFiles, NoMemory> {
    files_with(alloc, failing, "")
}

// The third call of the files pulls the end of the definition.
#[test]
fn a_sum_is_run(rt: HostRuntime) -> Result<(), Fail> {
    let alloc = rt.alloc();
    for (line, read, write, wanted, written) in [
        ("run d j 2", 99, 99, Status::Done, SUM),
        ("run d j 0000000064", 99, 99, Status::Done, SUM),
        ("run d j 1", 99, 99, Status::Done, "results 0\n"),
        ("run d j 0", 99, 99, Status::Done, "results 0\n"),
        ("run d j 2", 3, 99, Status::ReadFault, ""),
        ("run d j 2", 99, 1, Status::WriteFault, "resu"),
    ] {
        let mut files = files(alloc, read)?;
        let mut sink = MemSink::new(alloc, 100, &[(write, 4)])?;
        let words = words(alloc, line)?;
        let status = workbench(alloc, words.as_slice(), &mut files, &mut sink);
        assert_eq!(rt; status, wanted, "{line}");
        assert_eq!(rt; str::from_utf8(sink.written()), Ok(written), "{line}");
    }
    Ok(())
}

const SIGNS: &str = "table 1 sign
eval 0 () -> (pos)
eval 1 () -> (pos)
eval 2 () -> (pos)
";

const CONSTRAINTS: &str = "constraints 1 sign
cover eval 0 ()
key eval 0
0 -> 1 call eval 1 ()
1 -> 2 call eval 2 ()
2 -> 3 filter add (1.0, 2.0)
3 -> out (3.0)
key eval 1
0 -> 1 filter lit (1)
1 -> out (1.0)
key eval 2
0 -> 1 filter lit (2)
1 -> out (1.0)
";

/// Definitions, jobs and tables, and what the commands write of them.
const TEXTS: [(&str, &str, &str, Status); 19] = [
    (
        "check d",
        "",
        "good sorts 1 constructors 2 hooks 1 rules 2\n",
        Status::Done,
    ),
    (
        "check t",
        "skel 1 # a comment",
        "good sorts 0 constructors 0 hooks 0 rules 0\n",
        Status::Done,
    ),
    (
        "check t",
        "skel 1\nsort \u{e9} con c:\u{e9}(name)",
        "good sorts 1 constructors 1 hooks 0 rules 0\n",
        Status::Done,
    ),
    (
        "check t",
        "skel 1\nsort a\n  sort a",
        "refused definition 3:8 Duplicate\n",
        Status::Definition,
    ),
    (
        "check t",
        "skel 1 .",
        "refused definition 1:8 BadChar\n",
        Status::Definition,
    ),
    (
        "check t",
        "",
        "refused definition 1:1 Unexpected\n",
        Status::Definition,
    ),
    (
        "check t",
        "skel 1\nsort a con c:a()\n hook h() a -> ()",
        "refused definition 3:2 MissingRule\n",
        Status::Definition,
    ),
    (
        "run t j 1",
        "skel 1\nsort a con c:a() hook h() a -> ()\nrule h c() () {\n  zero() -> (x, y) } -> ()",
        "refused definition 4:3 WrongCount\n",
        Status::Definition,
    ),
    (
        "run t j 1",
        "skel 1 sort a con c:a(name)",
        "refused job 2:9 UnknownConstructor\n",
        Status::Job,
    ),
    (
        "verify d j sign t",
        "table 1 sign eval 0 () -> (pos) eval 1 () -> (pos) eval 2 () -> (any)",
        "no triple 1 larger (any)\n",
        Status::No,
    ),
    (
        "verify d j interval t",
        "table 1 interval\neval 1 () -> ([1..1])\neval 2 () -> ([0..2])\neval 0 () -> ([1..3])\n",
        "yes 3 triples\n",
        Status::Done,
    ),
    (
        "verify d j sign t",
        "table 1 sign eval 0 () -> (pos)",
        "no triple 1 uncovered eval 1 ()\n",
        Status::No,
    ),
    (
        "verify d j sign t",
        "table 1 sign",
        "no cover 1\n",
        Status::No,
    ),
    (
        "verify d j sign t",
        "table 1 interval",
        "refused table 1:9 WrongDomain\n",
        Status::Table,
    ),
    ("analyse d j sign", "", SIGNS, Status::Done),
    ("solve d j sign", "", SIGNS, Status::Done),
    (
        "analyse d j interval",
        "",
        "table 1 interval\neval 0 () -> ([3..3])\neval 1 () -> ([1..1])\neval 2 () -> ([2..2])\n",
        Status::Done,
    ),
    ("constrain d j sign", "", CONSTRAINTS, Status::Done),
    (
        "analyse d t sign",
        "job 1\nprogram num(1)\n",
        "refused job 3:1 NoCover\n",
        Status::Job,
    ),
];

#[test]
fn texts_are_checked(rt: HostRuntime) -> Result<(), Fail> {
    let alloc = rt.alloc();
    for (line, text, written, wanted) in TEXTS {
        let mut files = files_with(alloc, 99, text)?;
        let mut sink = MemSink::new(alloc, 1000, &[])?;
        let words = words(alloc, line)?;
        let status = workbench(alloc, words.as_slice(), &mut files, &mut sink);
        assert_eq!(rt; str::from_utf8(sink.written()), Ok(written), "{text}");
        assert_eq!(rt; status, wanted, "{text}");
    }
    Ok(())
}

/// A definition with an input and two sorts.
const SECOND: &str = "skel 1
sort s
sort t
con one : s(number)
con two : t(number, s)
hook go(int) t -> (int)
hook at() s -> (int)
rule go two(n, a) (x) { at() a -> (y) lit(n) -> (z) add(x, z) -> (w) } -> (w)
rule at one(n) () { lit(n) -> (x) } -> (x)
";

/// Jobs of the second definition, and what `run` writes of them at depth 2.
const JOBS: [(&str, &str, Status); 24] = [
    (
        "job 01 program two(3, one(9))\nstart go -0 (5) cover interval at 1 ()",
        "result 1 (8)\n0 go 0 (5) -> (8)\n1 at 1 () -> (9)\nresults 1\n",
        Status::Done,
    ),
    ("", "refused job 1:1 Unexpected\n", Status::Job),
    ("job 2", "refused job 1:5 Unexpected\n", Status::Job),
    (
        "job 1 program two(3, one(9))",
        "refused job 1:29 NoStart\n",
        Status::Job,
    ),
    (
        "job 1 program one(9)\ncover sign at 0 ()\n",
        "refused job 3:1 NoStart\n",
        Status::Job,
    ),
    (
        "job 1 program one(9) \u{b7}",
        "refused job 1:22 BadChar\n",
        Status::Job,
    ),
    (
        "job 1 program ons()",
        "refused job 1:15 UnknownConstructor\n",
        Status::Job,
    ),
    (
        "job 1 program two(3, two(3, one(9)))",
        "refused job 1:22 WrongSort\n",
        Status::Job,
    ),
    (
        "job 1 program two(3)",
        "refused job 1:20 WrongCount\n",
        Status::Job,
    ),
    (
        "job 1 program one(9)\nstart no 0 ()",
        "refused job 2:7 UnknownHook\n",
        Status::Job,
    ),
    (
        "job 1 program one(9)\nstart go 0 (5)",
        "refused job 2:10 WrongPoint\n",
        Status::Job,
    ),
    (
        "job 1 program one(9)\nstart at 65536 ()",
        "refused job 2:10 WrongPoint\n",
        Status::Job,
    ),
    (
        "job 1 program one(9)\nstart at -1 ()",
        "refused job 2:10 WrongPoint\n",
        Status::Job,
    ),
    (
        "job 1 program one(9)\nstart at 0 (,",
        "refused job 2:13 WrongCount\n",
        Status::Job,
    ),
    (
        "job 1 program two(3, one(9))\nstart go 0 ()",
        "refused job 2:13 WrongCount\n",
        Status::Job,
    ),
    (
        "job 1 program two(3, one(9))\nstart go 0 (true)",
        "refused job 2:13 Unexpected\n",
        Status::Job,
    ),
    (
        "job 1 program one(9)\nstart at 0 () start at 0 ()",
        "refused job 2:15 Unexpected\n",
        Status::Job,
    ),
    (
        "job 1 program one(9)\ncover at 0 ()",
        "refused job 2:7 Unexpected\n",
        Status::Job,
    ),
    (
        "job 1 program one(9)\ncover sign no 0 ()",
        "refused job 2:12 UnknownHook\n",
        Status::Job,
    ),
    (
        "job 1 program one(9)\ncover sign go 9 (any)",
        "refused job 2:15 WrongPoint\n",
        Status::Job,
    ),
    (
        "job 1 program two(3, one(9))\ncover sign go 0 (any)\ncover interval go 0 ([0..max])\n",
        "refused job 4:1 NoStart\n",
        Status::Job,
    ),
    (
        "job 1 program two(3, one(9))\ncover sign go 0 (none)",
        "refused job 2:17 Empty\n",
        Status::Job,
    ),
    (
        "job 1 program two(3, one(9))\ncover interval go 0 ([2..1])",
        "refused job 2:26 Unexpected\n",
        Status::Job,
    ),
    (
        "job 1 program one(9)\ncover sign at 0",
        "refused job 2:16 Unexpected\n",
        Status::Job,
    ),
];

#[test]
fn jobs_are_read(rt: HostRuntime) -> Result<(), Fail> {
    let alloc = rt.alloc();
    for (text, written, wanted) in JOBS {
        let mut files = MemFiles::new(alloc, &[])?;
        files.hold("d", SECOND.as_bytes())?;
        files.hold("t", text.as_bytes())?;
        let mut sink = MemSink::new(alloc, 100, &[])?;
        let words = words(alloc, "run d t 2")?;
        let status = workbench(alloc, words.as_slice(), &mut files, &mut sink);
        assert_eq!(rt; str::from_utf8(sink.written()), Ok(written), "{text}");
        assert_eq!(rt; status, wanted, "{text}");
    }
    Ok(())
}

/// A definition with choices, and one with states and branches.
pub(crate) const CHOICE: &str = "skel 1
sort t
con toss : t()
con span : t(number, number)
hook go() t -> (int)
rule go toss() () {
  any_bool() -> (b)
  either { is_true(b) -> () one() -> (r) } or { is_false(b) -> () one() -> (r) } with (r)
} -> (r)
rule go span(a, b) () { lit(a) -> (x) lit(b) -> (y) pick(x, y) -> (r) } -> (r)
";

const STEPS: &str = "skel 1
sort stmt
con throw : stmt()
con set : stmt(name, number)
con seq : stmt(stmt, stmt)
hook exec(store) stmt -> (store, bool)
rule exec throw() (s) { yes() -> (f) } -> (s, f)
rule exec set(x, n) (s) { lit(n) -> (i) of_int(i) -> (v) write(s, x, v) -> (t) no() -> (f) } -> (t, f)
rule exec seq(a, b) (s) {
  exec(s) a -> (s1, f1)
  either { is_true(f1) -> () keep_store(s1) -> (t) keep_bool(f1) -> (f) }
  or { is_false(f1) -> () exec(s1) b -> (t, f) } with (t, f)
} -> (t, f)
";

/// Definitions, jobs, and their results at depth 2.
const RESULTS: [(&str, &str, &str); 5] = [
    (
        CHOICE,
        "job 1 program toss() start go 0 ()",
        "result 1 (1)\n0 go 0 () -> (1)\n1 pick 0\n1 pick 0\nresults 1\n",
    ),
    (
        CHOICE,
        "job 1 program span(1, 2) start go 0 ()",
        "result 1 (1)\n0 go 0 () -> (1)\n1 pick 0\nresult 2 (2)\n0 go 0 () -> (2)\n1 pick 1\nresults 2\n",
    ),
    (
        CHOICE,
        "job 1 program span(3, 1) start go 0 ()",
        "results 0\n",
    ),
    (
        STEPS,
        "job 1 program seq(throw(), set(x, 1)) start exec 0 ({})",
        "result 1 ({}, true)\n0 exec 0 ({}) -> ({}, true)\n1 exec 1 ({}) -> ({}, true)\n1 pick 0\nresults 1\n",
    ),
    (
        STEPS,
        "job 1 program set(x, 7) start exec 0 ({y=true})",
        "result 1 ({x=7, y=true}, false)\n0 exec 0 ({y=true}) -> ({x=7, y=true}, false)\nresults 1\n",
    ),
];

#[test]
fn choices_and_states_are_run(rt: HostRuntime) -> Result<(), Fail> {
    let alloc = rt.alloc();
    for (definition, job, written) in RESULTS {
        let mut files = MemFiles::new(alloc, &[])?;
        files.hold("d", definition.as_bytes())?;
        files.hold("j", job.as_bytes())?;
        let mut sink = MemSink::new(alloc, 200, &[])?;
        let words = words(alloc, "run d j 2")?;
        let status = workbench(alloc, words.as_slice(), &mut files, &mut sink);
        assert_eq!(rt; str::from_utf8(sink.written()), Ok(written), "{job}");
        assert_eq!(rt; status, Status::Done, "{job}");
    }
    Ok(())
}

/// A text of so many spaces.
fn spaces(alloc: Global, count: usize) -> Result<Vec<u8>, NoMemory> {
    let mut text = Vec::new(alloc);
    for _ in 0..count {
        text.push(b' ')?;
    }
    Ok(text)
}

#[test]
fn files_have_a_limit(rt: HostRuntime) -> Result<(), Fail> {
    let alloc = rt.alloc();
    let mut files = MemFiles::new(alloc, &[])?;
    files.hold("d", spaces(alloc, 4_194_304)?.as_slice())?;
    let mut sink = MemSink::new(alloc, 100, &[])?;
    let words = words(alloc, "check d")?;
    let status = workbench(alloc, words.as_slice(), &mut files, &mut sink);
    let written = "refused definition 1:4194305 Unexpected\n";
    assert_eq!(rt; str::from_utf8(sink.written()), Ok(written));
    assert_eq!(rt; status, Status::Definition);
    Ok(())
}

#[test]
fn longer_files_are_not_read(rt: HostRuntime) -> Result<(), Fail> {
    let alloc = rt.alloc();
    for line in ["check d", "run d j 1"] {
        let mut files = MemFiles::new(alloc, &[])?;
        files.hold("d", spaces(alloc, 4_194_305)?.as_slice())?;
        let mut sink = MemSink::new(alloc, 100, &[])?;
        let words = words(alloc, line)?;
        let status = workbench(alloc, words.as_slice(), &mut files, &mut sink);
        assert_eq!(rt; (status, status.number()), (Status::TooLong, 9), "{line}");
        assert_eq!(rt; sink.written().len(), 0, "{line}");
    }
    Ok(())
}

#[test]
fn other_words_are_no_command(rt: HostRuntime) -> Result<(), Fail> {
    let alloc = rt.alloc();
    for line in [
        "",
        "check",
        "check d j",
        "run d j",
        "run d j 65",
        "run d j +2",
        "run d j 2x",
        "run d j 00000000002",
        "solve d j interval",
        "verify d j signs t",
    ] {
        let mut files = files(alloc, 99)?;
        let mut sink = MemSink::new(alloc, 100, &[])?;
        let words = words(alloc, line)?;
        let status = workbench(alloc, words.as_slice(), &mut files, &mut sink);
        assert_eq!(rt; (status, status.number()), (Status::Usage, 2), "{line}");
        assert_eq!(rt; sink.written().len(), 0, "{line}");
    }
    Ok(())
}
