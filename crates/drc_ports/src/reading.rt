ghost use Rattle.std.specs.Prelude.{◌≡◌, ◌<◌, [], ◌++◌, length, min, take};

use crate::held_file::HeldFile;

/// How far a file has been read: its place among the files, and how many of its bytes were taken.
#[derive(Clone, Copy, Debug)]
pub(crate) struct Reading {
    pub(crate) file: usize,
    pub(crate) position: usize,
}

impl Reading {
    ghost use Rattle.drc_ports.specs.Held.{left_at};

    /// Copies the next bytes into the front of the buffer, at most so many, and answers how many.
    pub(crate) fn advance(&mut self, files: &[HeldFile], buf: &mut [u8], most: usize) -> usize
        requires room { 0 < length buf.old }
        requires most { 0 < most }
        ensures count { result ≡ min (min (length (left_at self.old files.now)) (length buf.new)) most }
        ensures taken { left_at self.old files.now ≡ take result buf.new ++ left_at self.new files.now }
        ensures end { result ≡ 0 → left_at self.new files.now ≡ [] }
    {
        let Some(file) = files.get(self.file) else {
            return 0;
        };
        if file.bytes.len() <= self.position {
            return 0;
        }
        let left = &file.bytes[self.position..];
        let count = left.len().min(buf.len()).min(most);
        buf[..count].copy_from_slice(&left[..count]);
        self.position += count;
        count
    }
}
