use crate::{Line, push_line, take_line};
use ledger_history::Event;
use std::alloc::Global;
use std::process::Abort;
use std::test::Fail;

/// The line is what the text says, and printed it is the text.
fn check_line(rt: &impl Abort, alloc: Global, text: &[u8], line: Line) -> Result<(), Fail> {
    let read = take_line(text);
    assert_eq!(rt; read.is_some(), true);
    if let Some((found, rest)) = read {
        assert_eq!(rt; found, line);
        assert_eq!(rt; rest.len(), 0);
    }
    let mut printed = Vec::new(alloc);
    push_line(&mut printed, line)?;
    assert_eq!(rt; printed.as_slice(), text);
    Ok(())
}

#[test]
fn lines_are_read_and_printed(rt: HostRuntime) -> Result<(), Fail> {
    let claim = Event::Claim { worker: 3, op: 0 };
    let charge = Event::Charge {
        worker: 3,
        op: 10,
        cost: 18_446_744_073_709_551_615,
    };
    let release = Event::Release {
        worker: 1,
        op: 4_294_967_295,
        place: 1,
    };
    let rows: [(&[u8], Line); 10] = [
        (b"DRCTRACE 1\n", Line::Title),
        (b"operations 4294967295\n", Line::Operations(4_294_967_295)),
        (b"workers 65\n", Line::Workers(65)),
        (
            b"budget 18446744073709551615\n",
            Line::Budget(18_446_744_073_709_551_615),
        ),
        (b"cost 0 4\n", Line::Cost { op: 0, cost: 4 }),
        (b"claim 3 0\n", Line::Step(claim)),
        (b"charge 3 10 18446744073709551615\n", Line::Step(charge)),
        (
            b"publish 0 7\n",
            Line::Step(Event::Publish { worker: 0, op: 7 }),
        ),
        (b"release 1 4294967295 1\n", Line::Step(release)),
        (b"end\n", Line::End),
    ];
    for (text, line) in rows {
        check_line(&rt, rt.alloc(), text, line)?;
    }
    Ok(())
}

#[test]
fn what_is_no_line(rt: HostRuntime) {
    let texts: [&[u8]; 16] = [
        b"",
        b"\n",
        b"end",
        b"end \n",
        b"END\n",
        b"DRCTRACE 2\n",
        b"operations 4294967296\n",
        b"workers -1\n",
        b"workers 04\n",
        b"budget 18446744073709551616\n",
        b"budget 100000000000000000000\n",
        b"cost 0  4\n",
        b"claim 3 0 \n",
        b"charge 3 0\n",
        b"release 1 1\n",
        b"stop 3\n",
    ];
    for text in texts {
        assert!(rt; take_line(text).is_none());
    }
}

#[test]
fn a_line_and_the_next(rt: HostRuntime) {
    let read = take_line(b"publish 1 2\nend\n");
    assert_eq!(rt; read.is_some(), true);
    if let Some((line, rest)) = read {
        assert_eq!(rt; line, Line::Step(Event::Publish { worker: 1, op: 2 }));
        assert_eq!(rt; rest, b"end\n".as_slice());
    }
}
