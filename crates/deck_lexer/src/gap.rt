//! Blanks and comments.

ghost use Rattle.std.specs.Prelude.{◌≡◌, ◌≤◌, ◌+◌, ◌==◌, ◌&&◌, length, IfSome};
ghost use Rattle.std.specs.List.{prefix_len};
ghost use Rattle.deck_lexer.specs.Bytes.{is_in_line};
ghost use Rattle.deck_lexer.specs.Working.Reading.{line_len, block_len, comment_len, part_len};
ghost use Rattle.deck_lexer.specs.Working.Gaps.{Passes};

use crate::byte::{is_blank, is_in_line};

fn bytes_in_line(bytes: &[u8]) -> usize
    ensures within { result ≤ length bytes.now }
    ensures longest { result ≡ prefix_len is_in_line bytes.now }
{
    bytes.iter().take_while(|b| is_in_line(**b)).count()
}

// A line's length, with its end where it has one.
fn line_len(bytes: &[u8]) -> usize
    ensures within { result ≤ length bytes.now }
    ensures value { result ≡ line_len bytes.now }
{
    let len = bytes_in_line(bytes);
    if len < bytes.len() { len + 1 } else { len }
}

fn ends_comment(first: u8, second: u8) -> bool
    ensures { result ≡ (first == 42 && second == 47) }
{
    first == b'*' && second == b'/'
}

// The length of a comment up to its `*/` and with it.
fn block_len(bytes: &[u8]) -> Option<usize>
    ensures within { IfSome result (λ len. len ≤ length bytes.now) }
    ensures value { result ≡ block_len bytes.now }
{
    for last in 1..bytes.len() {
        if ends_comment(bytes[last - 1], bytes[last]) {
            return Some(last + 1);
        }
    }
    None
}

// The length of a comment from its second byte on, and one more; 0 where it is none, or has no end.
fn comment_len(bytes: &[u8]) -> usize
    ensures within { result ≤ length bytes.now + 1 }
    ensures value { result ≡ comment_len bytes.now }
{
    match bytes {
        [b'/', more @ ..] => line_len(more) + 2,
        [b'*', more @ ..] => match block_len(more) {
            Some(len) => len + 2,
            None => 0,
        },
        _ => 0,
    }
}

// The length of the blank or the whole comment at the front, or 0.
#[tactic(auto, unfolding(crate::specs::Working::Reading::part_len))]
fn part_len(bytes: &[u8]) -> usize
    ensures within { result ≤ length bytes.now }
    ensures value { result ≡ part_len bytes.now }
{
    match bytes {
        [] => 0,
        [b'/', more @ ..] => comment_len(more),
        [first, ..] => { if is_blank(*first) { 1 } else { 0 } }
    }
}

/// The length of the blanks and whole comments at the front.
pub fn gap_len(bytes: &[u8]) -> usize
    ensures { Passes bytes.now result }
{
    let mut len = 0;
    loop {
        let part = part_len(&bytes[len..]);
        if part == 0 {
            return len;
        }
        len += part;
    }
}
