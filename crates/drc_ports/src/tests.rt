ghost use Rattle.std.specs.Prelude.{IsTrue};

use super::*;
use drc_geom::Name;
use std::alloc::{AllocError, Global};
use std::test::Fail;

fn no_memory(_: AllocError) -> Failed {
    Failed
}

// What is left of the file that is read, some bytes at a time.
fn read_all<F: Files>(files: &mut F, alloc: Global) -> Result<Vec<u8>, Failed>
    requires { IsTrue (F.tally files.old).started }
{
    let mut all = Vec::new(alloc);
    let mut buf = [0u8; 4];
    'reads: for _ in 0..u64::MAX {
        let count = files.read(&mut buf)?;
        if count == 0 {
            break 'reads;
        }
        all.extend_from_slice(&buf[..count]).map_err(no_memory)?;
    }
    Ok(all)
}

fn read_file<F: Files>(files: &mut F, alloc: Global, name: &str) -> Result<Vec<u8>, Failed> {
    files.begin_read(String::from_str(alloc, name).map_err(no_memory)?)?;
    read_all(files, alloc)
}

fn write_all<F: Files>(files: &mut F, bytes: &[u8]) -> Result<(), Failed>
    requires { IsTrue (F.tally files.old).writing }
{
    let mut rest = bytes;
    'writes: while !rest.is_empty() {
        let count = files.write(rest)?;
        rest = &rest[count..];
    }
    Ok(())
}

fn write_file<F: Files>(
    files: &mut F,
    alloc: Global,
    name: &str,
    bytes: &[u8],
) -> Result<(), Failed> {
    files.create(String::from_str(alloc, name).map_err(no_memory)?)?;
    write_all(files, bytes)
}

fn say_all<F: Files>(files: &mut F, bytes: &[u8]) -> Result<(), Failed> {
    let mut rest = bytes;
    'says: while !rest.is_empty() {
        let count = files.say(rest)?;
        rest = &rest[count..];
    }
    Ok(())
}

// Copies "deck" to "out", and says it.
fn copy<F: Files>(files: &mut F, alloc: Global) -> Result<(), Failed> {
    let bytes = read_file(files, alloc, "deck")?;
    write_file(files, alloc, "out", &bytes)?;
    say_all(files, &bytes)
}

// Holds "deck".
fn memory(alloc: Global, fails: Vec<Planned>) -> Result<MemoryFiles, AllocError> {
    let name = Name::new(alloc, b"deck")?;
    let bytes = Vec::from_slice(alloc, b"abcde")?;
    let held = vec![in alloc; HeldFile { name, bytes }]?;
    Ok(MemoryFiles::new(alloc, held, 2, 3, fails))
}

#[test]
fn a_file_in_memory_is_copied(rt: HostRuntime) -> Result<(), Fail> {
    let alloc = rt.alloc();
    let mut files = memory(alloc, Vec::new(alloc))?;
    copy(&mut files, alloc)?;
    assert!(rt; files.made(&Name::new(alloc, b"out")?) == Some(b"abcde".as_slice()));
    assert!(rt; files.made(&Name::new(alloc, b"deck")?).is_none());
    assert!(rt; files.said() == b"abcde".as_slice());
    assert!(rt; read_file(&mut files, alloc, "out").is_err());
    Ok(())
}

#[test]
fn a_file_in_memory_is_made_again(rt: HostRuntime) -> Result<(), Fail> {
    let alloc = rt.alloc();
    let mut files = memory(alloc, Vec::new(alloc))?;
    write_file(&mut files, alloc, "out", b"old")?;
    write_file(&mut files, alloc, "other", b"others")?;
    write_file(&mut files, alloc, "out", b"new")?;
    assert!(rt; files.made(&Name::new(alloc, b"out")?) == Some(b"new".as_slice()));
    assert!(rt; files.made(&Name::new(alloc, b"other")?) == Some(b"others".as_slice()));
    Ok(())
}

// How many bytes of "out" are made, and how many are said, where one call of a copy fails.
fn left_by(alloc: Global, call: CallKind, nth: u64) -> Result<(Option<usize>, usize), Fail> {
    let mut files = memory(alloc, vec![in alloc; Planned { call, nth }]?)?;
    if copy(&mut files, alloc).is_ok() {
        return Ok((None, 99));
    }
    let made = files
        .made(&Name::new(alloc, b"out")?)
        .map(|bytes| bytes.len());
    Ok((made, files.said().len()))
}

#[test]
fn a_planned_call_fails(rt: HostRuntime) -> Result<(), Fail> {
    let table = [
        (CallKind::BeginRead, 1, None, 0),
        (CallKind::Read, 2, None, 0),
        (CallKind::Create, 1, None, 0),
        (CallKind::Write, 2, Some(3), 0),
        (CallKind::Say, 2, Some(5), 3),
    ];
    for (call, nth, made, said) in table {
        let left = left_by(rt.alloc(), call, nth)?;
        assert!(rt; left.0 == made && left.1 == said);
    }
    Ok(())
}

#[test]
fn files_of_the_system(rt: HostRuntime) -> Result<(), Fail> {
    let alloc = rt.alloc();
    let mut files = RealFiles::new(&rt, alloc);
    write_file(&mut files, alloc, "written", b"some lines\n")?;
    let bytes = read_file(&mut files, alloc, "written")?;
    assert!(rt; bytes.as_slice() == b"some lines\n".as_slice());
    say_all(&mut files, &bytes)?;
    assert!(rt; read_file(&mut files, alloc, "missing").is_err());
    assert!(rt; read_file(&mut files, alloc, ".").is_err());
    assert!(rt; write_file(&mut files, alloc, ".", b"some").is_err());
    std::fs::remove_file(&rt, "written")?;
    Ok(())
}
