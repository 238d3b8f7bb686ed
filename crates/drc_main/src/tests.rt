//! Whole runs over files in memory.
use crate::layout_samples::{layout, outline};
use deck_tree::{DeckKind, DeckRefusal, Single};
use drc_cli::{Status, Which, is_plain, run, run_plain};
use drc_geom::Name;
use drc_ports::{CallKind, Files, HeldFile, MemoryFiles, OpenGate, Planned};
use gds_records::{LayoutKind, LayoutRefusal};
use std::alloc::{AllocError, Global};
use std::process::Abort;
use std::sync::Wait;
use std::test::Fail;
use std::thread::Threads;

const DECK: &[u8] =
    b"LAYOUT SYSTEM GDSII\nLAYOUT PATH \"a.gds\"\nLAYOUT PRIMARY TOP\nDRC RESULTS DATABASE \"a.db\" ASCII\nLAYER M1 1\nLAYER M2 2\nSHORT { @ short edge\nLENGTH M1 < 0.2\n}\n";

/// DECK as someone else writes it.
const SPELLED: &[u8] =
    b"// the short sides\nlayout system gdsii layout path \"a.gds\" layout primary \"TOP\"\r\ndrc results database a.db\nLAYER M1 01 /* metal */ LAYER M2 2.\nSHORT {@ short edge  \n\tlength M1 < .200 }";

/// As DECK, with other names and a bound of 250 units.
const OTHER_DECK: &[u8] =
    b"LAYOUT SYSTEM GDSII\nLAYOUT PATH \"a.gds\"\nLAYOUT PRIMARY TOP\nDRC RESULTS DATABASE \"a.db\" ASCII\nLAYER M1 1\nR { @ n\nLENGTH M1 < 0.25\n}\n";

/// A rectangle's x0, y0, x1 and y1, of its lower left and its upper right corner.
type Corners = [i32; 4];

const BAR: Corners = [0, 0, 100, 300];

const SHORT: &[u8] =
    b"TOP 1000\nSHORT\n2 2 1 T1\nshort edge\ne 1 1\n0 0 100 0\ne 2 1\n0 300 100 300\n";

const NONE: &[u8] = b"TOP 1000\nSHORT\n0 0 1 T1\nshort edge\n";

/// What OTHER_DECK means for a rectangle that is 200 or 100 units wide and 300 high, and for two squares at a corner.
const WIDE: &[u8] = b"TOP 1000\nR\n2 2 1 T1\nn\ne 1 1\n0 0 200 0\ne 2 1\n0 300 200 300\n";

const NARROW: &[u8] = b"TOP 1000\nR\n2 2 1 T1\nn\ne 1 1\n0 0 100 0\ne 2 1\n0 300 100 300\n";

const AT_A_CORNER: &[u8] =
    b"TOP 1000\nR\n8 8 1 T1\nn\ne 1 1\n0 0 100 0\ne 2 1\n0 0 0 100\ne 3 1\n100 0 100 100\ne 4 1\n0 100 100 100\ne 5 1\n100 100 200 100\ne 6 1\n100 100 100 200\ne 7 1\n200 100 200 200\ne 8 1\n100 200 200 200\n";

const TWO_FOUND: &[u8] = b"checks 1 found 2 written 2\n";

const CHECK: &str = "check --date T1 a.svrf";

/// The words of a line, between which a space stands.
fn words_of(alloc: Global, line: &str) -> Result<Vec<String>, AllocError> {
    let mut list = Vec::new(alloc);
    for word in line.split(' ') {
        list.push(String::from_str(alloc, word)?)?;
    }
    Ok(list)
}

fn file(alloc: Global, name: &[u8], bytes: &[u8]) -> Result<HeldFile, AllocError> {
    Ok(HeldFile {
        name: Name::new(alloc, name)?,
        bytes: Vec::from_slice(alloc, bytes)?,
    })
}

/// A deck and a layout that are held, read in pieces of so many bytes, and calls that fail.
fn files_of(
    alloc: Global,
    deck: &[u8],
    layout: &[u8],
    read_piece: usize,
    fails: Vec<Planned>,
) -> Result<MemoryFiles, AllocError> {
    let mut held = Vec::new(alloc);
    held.push(file(alloc, b"a.svrf", deck)?)?;
    held.push(file(alloc, b"a.gds", layout)?)?;
    Ok(MemoryFiles::new(alloc, held, read_piece.max(1), 10, fails))
}

/// No call fails, or the nth of this kind.
fn failing(alloc: Global, call: Option<(CallKind, u64)>) -> Result<Vec<Planned>, AllocError> {
    let mut fails = Vec::new(alloc);
    if let Some((call, nth)) = call {
        fails.push(Planned { call, nth })?;
    }
    Ok(fails)
}

/// A layout with these rectangles on layer 1.
fn stream(alloc: Global, rectangles: &[Corners]) -> Result<Vec<u8>, AllocError> {
    let mut elements = Vec::new(alloc);
    for &[x0, y0, x1, y1] in rectangles {
        elements.push((1, outline(x0, y0, x1, y1)))?;
    }
    layout(alloc, &elements)
}

fn answer_of<R: Threads + Wait + Sync, F: Files>(
    rt: &R,
    alloc: Global,
    line: &str,
    files: &mut F,
) -> Result<Status, AllocError> {
    let words = words_of(alloc, line)?;
    Ok(run(rt, alloc, &words, files, &OpenGate).status)
}

/// The status, the results file and what was said.
#[derive(Clone, Copy)]
struct Wanted {
    status: Status,
    results: Option<&'static [u8]>,
    said: &'static [u8],
}

/// Checks a layout, and compares.
fn expect<R: Threads + Wait + Sync + Abort>(
    rt: &R,
    alloc: Global,
    deck: &[u8],
    layout: &[u8],
    call: Option<(CallKind, u64)>,
    wanted: Wanted,
) -> Result<(), AllocError> {
    let fails = failing(alloc, call)?;
    let mut files = files_of(alloc, deck, layout, 80, fails)?;
    let answer = answer_of(rt, alloc, CHECK, &mut files)?;
    let name = Name::new(alloc, b"a.db")?;
    assert!(rt; answer == wanted.status, "{answer:?}");
    assert!(rt; files.made(&name) == wanted.results);
    assert!(rt; files.said() == wanted.said);
    Ok(())
}

#[test]
fn the_short_sides_of_a_rectangle(rt: HostRuntime) -> Result<(), Fail> {
    let alloc = rt.alloc();
    let layout = stream(alloc, &[BAR])?;
    let wanted = Wanted {
        status: Status::Done,
        results: Some(SHORT),
        said: TWO_FOUND,
    };
    expect(&rt, alloc, DECK, &layout, None, wanted)?;
    Ok(())
}

#[test]
fn a_layout_without_elements(rt: HostRuntime) -> Result<(), Fail> {
    let alloc = rt.alloc();
    let layout = stream(alloc, &[])?;
    let wanted = Wanted {
        status: Status::Done,
        results: Some(NONE),
        said: b"checks 1 found 0 written 0\n",
    };
    expect(&rt, alloc, DECK, &layout, None, wanted)?;
    Ok(())
}

#[test]
fn the_short_sides_of_rectangles_that_meet(rt: HostRuntime) -> Result<(), Fail> {
    let alloc = rt.alloc();
    let rows: [([Corners; 2], &'static [u8], &'static [u8]); 4] = [
        // along a side
        ([BAR, [100, 0, 200, 300]], WIDE, TWO_FOUND),
        // one is the other
        ([BAR, BAR], NARROW, TWO_FOUND),
        // one inside the other
        ([[0, 0, 200, 300], [50, 50, 60, 60]], WIDE, TWO_FOUND),
        // at a corner alone
        (
            [[0, 0, 100, 100], [100, 100, 200, 200]],
            AT_A_CORNER,
            b"checks 1 found 8 written 8\n",
        ),
    ];
    for (rectangles, results, said) in rows {
        let layout = stream(alloc, &rectangles)?;
        let wanted = Wanted {
            status: Status::Done,
            results: Some(results),
            said,
        };
        expect(&rt, alloc, OTHER_DECK, &layout, None, wanted)?;
    }
    Ok(())
}

fn layout_refused(at: u64, kind: LayoutKind, said: &'static [u8]) -> Wanted {
    Wanted {
        status: Status::Layout(LayoutRefusal { at, kind }),
        results: None,
        said,
    }
}

#[test]
fn layouts_that_are_cut(rt: HostRuntime) -> Result<(), Fail> {
    let alloc = rt.alloc();
    let layout = stream(alloc, &[BAR])?;
    for (length, said) in [
        (130, b"layout 2 at 130 Truncated\n".as_slice()),
        (166, b"layout 2 at 166 Truncated\n".as_slice()),
    ] {
        let cut = &layout.as_slice()[..layout.len().min(length)];
        let wanted = layout_refused(length as u64, LayoutKind::Truncated, said);
        expect(&rt, alloc, DECK, cut, None, wanted)?;
    }
    Ok(())
}

#[test]
fn a_write_that_fails(rt: HostRuntime) -> Result<(), Fail> {
    let alloc = rt.alloc();
    let layout = stream(alloc, &[BAR])?;
    let wanted = Wanted {
        status: Status::WriteFault(Which::Results),
        results: Some(b"TOP 1000\nS"),
        said: b"write a.db\n",
    };
    expect(
        &rt,
        alloc,
        DECK,
        &layout,
        Some((CallKind::Write, 2)),
        wanted,
    )?;
    Ok(())
}

/// The second piece of the deck isn't read, or the third of the layout.
#[test]
fn a_read_that_fails(rt: HostRuntime) -> Result<(), Fail> {
    let alloc = rt.alloc();
    let layout = stream(alloc, &[BAR, BAR, BAR])?;
    for (nth, file, said) in [
        (2, Which::Deck, b"read a.svrf\n".as_slice()),
        (7, Which::Layout, b"read a.gds\n".as_slice()),
    ] {
        let wanted = Wanted {
            status: Status::ReadFault(file),
            results: None,
            said,
        };
        expect(
            &rt,
            alloc,
            DECK,
            &layout,
            Some((CallKind::Read, nth)),
            wanted,
        )?;
    }
    Ok(())
}

/// Is this the answer to the words, and is this said?
fn answers<R: Threads + Wait + Sync>(
    rt: &R,
    alloc: Global,
    line: &str,
    status: Status,
    said: &[u8],
) -> Result<bool, AllocError> {
    let mut files = files_of(alloc, b"TITLE \"x\"\n", &[], 80, Vec::new(alloc))?;
    let answer = answer_of(rt, alloc, line, &mut files)?;
    Ok(answer == status && files.said() == said)
}

#[test]
fn words_that_are_refused(rt: HostRuntime) -> Result<(), Fail> {
    for line in [
        "",
        "check",
        "--help",
        "check -a",
        "check ",
        "check --date a.svrf",
        "check --date  a.svrf",
        "check a.svrf --date T1",
        "check --workers 1 a.svrf",
        "check --date T1 --date T1 a.svrf",
        "fmt",
        "fmt -a",
        "fmt a.svrf b.svrf",
    ] {
        assert!(rt;
            answers(&rt, rt.alloc(), line, Status::Words, b"words\n")?,
            "{line}"
        );
    }
    Ok(())
}

/// Lines behind the statements that a deck must have.
fn with_head(alloc: Global, lines: &[u8]) -> Result<Vec<u8>, AllocError> {
    let mut deck = Vec::from_slice(alloc, &DECK[..115])?;
    deck.extend_from_slice(lines)?;
    Ok(deck)
}

/// Says the command of this deck that it is refused so?
fn refuses<R: Threads + Wait + Sync>(
    rt: &R,
    alloc: Global,
    line: &str,
    deck: &[u8],
    refusal: DeckRefusal,
    said: &[u8],
) -> Result<bool, AllocError> {
    let mut files = files_of(alloc, deck, &[], 80, Vec::new(alloc))?;
    let answer = answer_of(rt, alloc, line, &mut files)?;
    Ok(answer == Status::Deck(refusal) && files.said() == said)
}

#[test]
fn decks_that_are_refused(rt: HostRuntime) -> Result<(), Fail> {
    let alloc = rt.alloc();
    let rows = [
        (
            b"DFM PROPERTY M1".as_slice(),
            DeckRefusal {
                at: 115,
                kind: DeckKind::Unsupported,
            },
            b"deck 6 at 115 Unsupported DFM\n".as_slice(),
        ),
        (
            b"x = M1 AND )",
            DeckRefusal {
                at: 126,
                kind: DeckKind::Syntax,
            },
            b"deck 7 at 126 Syntax\n",
        ),
        (
            b"LAYOUT PRIMARY TOP",
            DeckRefusal {
                at: 115,
                kind: DeckKind::RepeatedStatement(Single::LayoutPrimary),
            },
            b"deck 14 at 115 RepeatedStatement LAYOUT PRIMARY\n",
        ),
    ];
    for (lines, refusal, said) in rows {
        let deck = with_head(alloc, lines)?;
        for line in [CHECK, "fmt a.svrf"] {
            assert!(rt; refuses(&rt, alloc, line, &deck, refusal, said)?, "{line}");
        }
    }
    Ok(())
}

#[test]
fn a_deck_that_is_not_served(rt: HostRuntime) -> Result<(), Fail> {
    let alloc = rt.alloc();
    let deck = with_head(alloc, b"R { @ r\nLENGTH M1 < 0.2 + 0\n}\n")?;
    let refusal = DeckRefusal {
        at: 0,
        kind: DeckKind::NotBuilt,
    };
    assert!(rt;
        refuses(
            &rt,
            alloc,
            CHECK,
            &deck,
            refusal,
            b"deck 90 at 0 NotBuilt\n"
        )?
    );
    Ok(())
}

#[test]
fn a_deck_in_another_spelling(rt: HostRuntime) -> Result<(), Fail> {
    let alloc = rt.alloc();
    let layout = stream(alloc, &[BAR])?;
    let wanted = Wanted {
        status: Status::Done,
        results: Some(SHORT),
        said: TWO_FOUND,
    };
    expect(&rt, alloc, SPELLED, &layout, None, wanted)?;
    Ok(())
}

/// `fmt` of the text says these lines.
fn expect_canonical(
    rt: &impl Abort,
    alloc: Global,
    text: &[u8],
    lines: &[u8],
) -> Result<(), AllocError> {
    let words = words_of(alloc, "fmt a.svrf")?;
    let words = words.as_slice();
    let mut files = files_of(alloc, text, &[], 80, Vec::new(alloc))?;
    let answer = if is_plain(words) {
        run_plain(alloc, words, &mut files)
    } else {
        Status::Words
    };
    assert!(rt; answer == Status::Done);
    assert!(rt; files.said() == lines);
    Ok(())
}

/// The canonical lines of a deck, and those of what was said once more.
#[test]
fn the_canonical_text_of_a_deck(rt: HostRuntime) -> Result<(), Fail> {
    let alloc = rt.alloc();
    let deck = with_head(
        alloc,
        b"x = m1 and (m2 not m3) // c\nA{@ hi\next [m1] <= .25+w square}\n",
    )?;
    let lines =
        b"LAYOUT SYSTEM GDSII\nLAYOUT PATH \"a.gds\"\nLAYOUT PRIMARY \"TOP\"\nDRC RESULTS DATABASE \"a.db\" ASCII\nLAYER M1 1\nLAYER M2 2\nx = m1 AND (m2 NOT m3)\nA {\n@ hi\nEXT [m1] <= 0.25 + w SQUARE\n}\n";
    expect_canonical(&rt, alloc, &deck, lines)?;
    expect_canonical(&rt, alloc, lines, lines)?;
    Ok(())
}

#[test]
fn layouts_that_are_refused(rt: HostRuntime) -> Result<(), Fail> {
    let alloc = rt.alloc();
    let edge = 1 << 30;
    let rows = [
        (
            (1, [0, 0, 0, 300, 100, 300, 100, 0, 0, 0]),
            (0, 0),
            114,
            b"layout 90 at 114 NotBuilt\n".as_slice(),
        ),
        (
            (2, outline(0, 0, 0, 300)),
            (0, 0),
            114,
            b"layout 90 at 114 NotBuilt\n",
        ),
        (
            (1, outline(200, 0, edge + 1, 10)),
            (0, 0),
            114,
            b"layout 90 at 114 NotBuilt\n",
        ),
        (
            (1, outline(0, 0, 100, 300)),
            (100, 0x09),
            98,
            b"layout 90 at 98 NotBuilt\n",
        ),
        (
            (1, outline(0, 0, 100, 300)),
            (46, 0x3F),
            42,
            b"layout 90 at 42 NotBuilt\n",
        ),
        (
            (1, outline(0, 0, 100, 300)),
            (94, b'P'),
            90,
            b"layout 90 at 90 NotBuilt\n",
        ),
    ];
    for (element, (place, byte), at, said) in rows {
        let mut bytes = layout(alloc, &[element])?;
        if let Some(there) = bytes.get_mut(place) {
            *there = byte;
        }
        let wanted = layout_refused(at, LayoutKind::NotBuilt, said);
        expect(&rt, alloc, DECK, &bytes, None, wanted)?;
    }
    Ok(())
}
