//! Each call once where nothing stands in its way, and failures at chosen calls.
ghost use Rattle.std.specs.Prelude.{◌-◌, ◌^◌, ◌<◌};

use crate::{
    Failed, FileFault, Files, Ident, MemFiles, MemSink, Names, NamesFault, NoMemory, Seq, Sink,
    Stack, StdFiles, StdSink, place_of, read_file, write_all,
};
use std::alloc::{AllocError, Global};
use std::test::Fail;
use std::{fs, str};

#[test]
fn places_count_lines_and_bytes(rt: HostRuntime) {
    let text = b"ab\n\xc3\xa9c\n";
    for (at, line, column) in [(0, 1, 1), (2, 1, 3), (3, 2, 1), (5, 2, 3), (7, 3, 1)] {
        let place = place_of(text, at);
        assert_eq!(rt; (place.line, place.column), (line, column), "at {at}");
    }
}

#[test]
fn names_are_numbered(rt: HostRuntime) -> Result<(), Fail> {
    let alloc = rt.alloc();
    let mut names = Names::new(alloc);
    for byte in 0..64 {
        assert_eq!(rt; names.add(&Ident::of(alloc, &[byte])?), Ok(byte));
    }
    let first = Ident::of(alloc, &[0])?;
    let late = Ident::of(alloc, &[64])?;
    assert_eq!(rt; names.add(&first), Ok(0));
    assert_eq!(rt; names.add(&late), Err(NamesFault::Full));
    assert_eq!(rt; (names.find(&first), names.find(&late)), (Some(0), None));
    assert_eq!(rt; names.count(), 64);
    assert!(rt; names.name(63).is(&[63]));
    assert_eq!(rt; names.take()?.len(), 64);
    Ok(())
}

#[test]
fn lists_hold_entries(rt: HostRuntime) -> Result<(), Fail> {
    let alloc = rt.alloc();
    let mut list = Seq::from_slice(alloc, &[1u8])?;
    list.push(2)?;
    list.put(0, 3);
    assert_eq!(rt; list.as_slice(), [3, 2].as_slice());
    assert_eq!(rt; list.pop(), Some(2));
    let taken = list.take(alloc);
    assert_eq!(rt; (taken.len(), list.is_empty()), (1, true));
    assert_eq!(rt; *taken.get(0), 3);

    let mut stack = Stack::new(alloc);
    stack.push(1u8)?;
    stack.push(2)?;
    assert_eq!(rt;
        (stack.len(), stack.pop(), stack.pop(), stack.pop()),
        (2, Some(2), Some(1), None)
    );

    let name = Ident::of(alloc, b"name")?.copy(alloc)?;
    assert_eq!(rt;
        (name.len(), *name.get(1), name.as_bytes()),
        (4, b'a', b"name".as_slice())
    );
    Ok(())
}

/// So many bytes 7.
fn sevens(alloc: Global, count: usize) -> Result<Vec<u8>, AllocError> {
    vec![in alloc; 7; count]
}

/// How many bytes are read of a file with these bytes, where this call is to fail.
fn read_length(
    alloc: Global,
    bytes: &[u8],
    failing: u64,
    limit: usize,
) -> Result<Result<usize, FileFault>, NoMemory>
    requires { limit < 2 ^ 32 - 1 }
{
    let mut files = MemFiles::new(alloc, &[failing])?;
    files.hold("file", bytes)?;
    Ok(read_file(alloc, &mut files, "file", limit).map(|read| read.len()))
}

// A file is read, and bytes are written, in pieces of 65,536 bytes: the number of the call that fails tells how many there were.
#[test]
fn pieces_are_counted_in_reading(rt: HostRuntime) -> Result<(), Fail> {
    let alloc = rt.alloc();
    let bytes = sevens(alloc, 131_072)?;
    for (failing, limit, wanted) in [
        (1, 131_072, Err(FileFault::Failed)),
        (4, 131_072, Err(FileFault::Failed)),
        (5, 131_072, Ok(131_072)),
        (3, 65_536, Err(FileFault::Failed)),
        (4, 65_536, Err(FileFault::TooLong)),
        (3, 65_535, Err(FileFault::TooLong)),
        (2, 65_535, Err(FileFault::Failed)),
    ] {
        let length = read_length(alloc, bytes.as_slice(), failing, limit)?;
        assert_eq!(rt; length, wanted, "call {failing}, limit {limit}");
    }
    Ok(())
}

#[test]
fn pieces_are_counted_in_writing(rt: HostRuntime) -> Result<(), Fail> {
    let alloc = rt.alloc();
    let bytes = sevens(alloc, 131_072)?;
    for (failing, wanted, kept) in [
        (1, Err(Failed), 0),
        (2, Err(Failed), 65_536),
        (3, Ok(()), 131_072),
    ] {
        let mut sink = MemSink::new(alloc, 131_072, &[(failing, 0)])?;
        assert_eq!(rt;
            write_all(&mut sink, bytes.as_slice()),
            wanted,
            "call {failing}"
        );
        assert_eq!(rt; sink.written().len(), kept, "call {failing}");
    }
    Ok(())
}

// The first pair of a call's number counts, and keeps no more than the piece has or than fits.
#[test]
fn sinks_fail_at_their_pairs(rt: HostRuntime) -> Result<(), Fail> {
    let alloc = rt.alloc();
    let mut sink = MemSink::new(alloc, 8, &[(2, 1), (2, 3), (3, 9), (5, 9)])?;
    for (piece, wanted, written) in [
        ("ab", Ok(()), "ab"),
        ("cd", Err(Failed), "abc"),
        ("ef", Err(Failed), "abcef"),
        ("ghij", Err(Failed), "abcefghi"),
        ("k", Err(Failed), "abcefghi"),
        ("", Ok(()), "abcefghi"),
    ] {
        assert_eq!(rt; sink.put(piece.as_bytes()), wanted, "{piece}");
        assert_eq!(rt; str::from_utf8(sink.written()), Ok(written), "{piece}");
    }
    Ok(())
}

#[test]
fn files_fail_at_their_calls(rt: HostRuntime) -> Result<(), Fail> {
    let alloc = rt.alloc();
    let mut files = MemFiles::new(alloc, &[1, 4])?;
    files.hold("poem", b"abc")?;
    let mut room = [0u8; 2];
    assert_eq!(rt; files.select("poem"), Err(Failed));
    assert_eq!(rt; files.select("poem"), Ok(()));
    for (wanted, front) in [
        (Ok(2), b'a'),
        (Err(Failed), b'a'),
        (Ok(1), b'c'),
        (Ok(0), b'c'),
    ] {
        assert_eq!(rt; files.pull(&mut room), wanted);
        assert_eq!(rt; room[0], front);
    }
    assert_eq!(rt; files.select("other"), Err(Failed));
    assert_eq!(rt; files.pull(&mut room), Ok(0));
    Ok(())
}

#[test]
fn files_of_the_system_are_read(rt: HostRuntime) -> Result<(), Fail> {
    let alloc = rt.alloc();
    fs::write(&rt, "poem", "a line\n")?;
    let mut files = StdFiles::new(&rt);
    for (name, limit, wanted) in [
        ("poem", 7, Ok(7)),
        ("poem", 6, Err(FileFault::TooLong)),
        ("other", 6, Err(FileFault::Failed)),
        ("", 6, Err(FileFault::Failed)),
        // A folder is opened, but can't be read.
        (".", 6, Err(FileFault::Failed)),
    ] {
        let length = read_file(alloc, &mut files, name, limit).map(|read| read.len());
        assert_eq!(rt; length, wanted, "{name} up to {limit}");
    }
    // Where a file can't be opened none is selected.
    assert_eq!(rt; files.select("poem"), Ok(()));
    assert_eq!(rt; files.select("other"), Err(Failed));
    assert_eq!(rt; files.pull(&mut [0; 7]), Ok(0));
    Ok(())
}

#[test]
fn writers_of_the_system_are_written(rt: HostRuntime) -> Result<(), Fail> {
    let mut sink = StdSink::new(fs::create(&rt, "poem")?);
    assert_eq!(rt; write_all(&mut sink, b"a line\n"), Ok(()));
    assert_eq!(rt; fs::read_to_string(&rt, "poem")?.as_str(), "a line\n");
    // A file that was opened for reading takes nothing.
    let mut shut = StdSink::new(fs::open(&rt, "poem")?);
    assert_eq!(rt; shut.put(b"more"), Err(Failed));
    Ok(())
}
