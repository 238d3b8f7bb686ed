//! Words that aren't kept.
use super::*;
use drc_cli::Status;
use drc_ports::MemoryFiles;
use std::test::Fail;

/// What became of the words, the status and what is said.
#[test]
fn words_that_are_not_kept(rt: HostRuntime) -> Result<(), Fail> {
    let alloc = rt.alloc();
    for (kind, status, said) in [
        (
            ErrorKind::OutOfMemory,
            Status::NoMemory,
            b"memory\n".as_slice(),
        ),
        (ErrorKind::InvalidData, Status::Words, b"words\n".as_slice()),
    ] {
        let words = text_words(alloc, Err(io::Error::from(kind)));
        let mut files = MemoryFiles::new(alloc, Vec::new(alloc), 1, 1, Vec::new(alloc));
        let report = report_of(&rt, alloc, words, &mut files);
        assert!(rt; report.status == status);
        assert!(rt; files.said() == said);
    }
    Ok(())
}
