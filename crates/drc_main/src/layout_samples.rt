//! Layouts that the tests read: the cell TOP with elements, by layer and points.
use std::alloc::{AllocError, Global};

const UNITS: [u8; 16] = [
    0x3E, 0x41, 0x89, 0x37, 0x4B, 0xC6, 0xA7, 0xF0, 0x39, 0x44, 0xB8, 0x2F, 0xA0, 0x9B, 0x5A, 0x54,
];

/// The points of a rectangle, from its lower left corner counterclockwise.
pub fn outline(x0: i32, y0: i32, x1: i32, y1: i32) -> [i32; 10] {
    [x0, y0, x1, y0, x1, y1, x0, y1, x0, y0]
}

fn put(stream: &mut Vec<u8>, heading: &[u8; 4], data: &[u8]) -> Result<(), AllocError> {
    stream.extend_from_slice(heading)?;
    stream.extend_from_slice(data)
}

fn put_element(stream: &mut Vec<u8>, layer: u16, points: &[i32; 10]) -> Result<(), AllocError> {
    put(stream, &[0, 4, 0x08, 0], &[])?;
    put(stream, &[0, 6, 0x0D, 2], &layer.to_be_bytes())?;
    put(stream, &[0, 6, 0x0E, 2], &[0, 7])?;
    put(stream, &[0, 44, 0x10, 3], &[])?;
    for coordinate in points {
        stream.extend_from_slice(&coordinate.to_be_bytes())?;
    }
    put(stream, &[0, 4, 0x11, 0], &[])
}

/// HEADER at 0, BGNLIB at 6, LIBNAME at 34, UNITS at 42, BGNSTR at 62, STRNAME at 90, and elements of 64 bytes from 98 on,
/// each with its XY at 16.
pub fn layout(alloc: Global, elements: &[(u16, [i32; 10])]) -> Result<Vec<u8>, AllocError> {
    let mut stream = Vec::new(alloc);
    put(&mut stream, &[0, 6, 0x00, 2], &[2, 0x58])?;
    put(&mut stream, &[0, 28, 0x01, 2], &[0; 24])?;
    put(&mut stream, &[0, 8, 0x02, 6], b"LIB\0")?;
    put(&mut stream, &[0, 20, 0x03, 5], &UNITS)?;
    put(&mut stream, &[0, 28, 0x05, 2], &[0; 24])?;
    put(&mut stream, &[0, 8, 0x06, 6], b"TOP\0")?;
    for (layer, points) in elements {
        put_element(&mut stream, *layer, points)?;
    }
    put(&mut stream, &[0, 4, 0x07, 0], &[])?;
    put(&mut stream, &[0, 4, 0x04, 0], &[])?;
    Ok(stream)
}
