//! What the data of a record say.

ghost use Rattle.std.specs.Prelude.{◌≡◌, ◌+◌, ◌*◌, ◌≤◌, length, take, drop};
ghost use Rattle.gds_values.specs.Values.{IsPadded, long_at, number_at, point_at};

use byteorder::{BigEndian, ByteOrder};
use drc_geom::Pt;
use gds_records::Real8;

/// The number of two bytes at an index.
pub fn number_at(body: &[u8], index: usize) -> i16
    requires { 2 * index + 2 ≤ length body.now }
    ensures { result ≡ number_at index body.now }
{
    BigEndian::read_i16(&body[2 * index..])
}

/// The number of four bytes at an index.
pub fn long_at(body: &[u8], index: usize) -> i32
    requires { 4 * index + 4 ≤ length body.now }
    ensures { result ≡ long_at index body.now }
{
    BigEndian::read_i32(&body[4 * index..])
}

/// The point of eight bytes at an index.
pub fn point_at(body: &[u8], index: usize) -> Pt
    requires { 8 * index + 8 ≤ length body.now }
    ensures { result ≡ point_at index body.now }
{
    Pt {
        x: i64::from(long_at(body, 2 * index)),
        y: i64::from(long_at(body, 2 * index + 1)),
    }
}

/// The real of eight bytes at an index.
pub fn real_at(body: &[u8], index: usize) -> Real8
    requires { 8 * index + 8 ≤ length body.now }
    ensures { result.bytes ≡ take 8 (drop (8 * index) body.now) }
{
    let mut bytes = [0; 8];
    bytes.copy_from_slice(&body[8 * index..8 * index + 8]);
    Real8 { bytes }
}

/// The text without its trailing NUL bytes.
pub fn without_padding(text: &[u8]) -> &[u8]
    ensures { IsPadded result.now text.now }
{
    let mut end = text.len();
    while end > 0 && text[end - 1] == 0 {
        end -= 1;
    }
    &text[..end]
}
