// The two files of a case, and their changes by words.
use std::alloc::{AllocError, Global};
use testing::script::{hexadecimal, number};

// More bytes than a file of the panel has.
const ROOM: usize = 32768;

// A file of so many bytes. What stands behind them counts again where it is cut to a greater length.
#[derive(Drop)]
pub struct File {
    room: Vec<u8>,
    length: usize,
}

impl File {
    pub fn new(alloc: Global, bytes: &[u8]) -> Result<File, AllocError> {
        let room = vec![in alloc; 0u8; ROOM]?;
        let mut file = File { room, length: 0 };
        file.add(bytes);
        Ok(file)
    }

    pub fn bytes(&self) -> &[u8] {
        self.start(self.length)
    }

    // So many of its bytes.
    pub fn start(&self, length: usize) -> &[u8] {
        self.room.get(..length).unwrap_or(self.room.as_slice())
    }

    pub fn len(&self) -> usize {
        self.length
    }

    pub fn byte(&self, at: usize) -> u8 {
        self.room.get(at).copied().unwrap_or(0)
    }

    // Puts bytes from an index on, as far as there is room.
    pub fn put(&mut self, at: usize, bytes: &[u8]) {
        if let Some(rest) = self.room.as_mut_slice().get_mut(at..) {
            for (place, byte) in rest.iter_mut().zip(bytes) {
                *place = *byte;
            }
        }
    }

    fn add(&mut self, bytes: &[u8]) {
        self.put(self.length, bytes);
        self.length = self.length.saturating_add(bytes.len());
    }

    // Adds the last record again, so many times.
    fn repeat(&mut self, record: usize, times: usize) {
        for _ in 0..times.saturating_mul(record) {
            let byte = self.byte(self.length.saturating_sub(record));
            self.put(self.length, &[byte]);
            self.length = self.length.saturating_add(1);
        }
    }

    // Changes it by a word: `<9` cuts it to 9 bytes, `+00` adds a byte, `*9` repeats the last record, which has so many bytes, 9 times,
    // `9=00` puts a byte at index 9.
    pub fn change(&mut self, alloc: Global, word: &str, record: usize) -> Result<(), AllocError> {
        if let Some(length) = word.strip_prefix('<') {
            self.length = number(length) as usize;
        } else if let Some(bytes) = word.strip_prefix('+') {
            self.add(hexadecimal(alloc, bytes)?.as_slice());
        } else if let Some(times) = word.strip_prefix('*') {
            self.repeat(record, number(times) as usize);
        } else if let Some((at, bytes)) = word.split_once('=') {
            self.put(number(at) as usize, hexadecimal(alloc, bytes)?.as_slice());
        }
        Ok(())
    }
}

// The network and the annotation.
#[derive(Drop)]
pub struct Files {
    pub net: File,
    pub ann: File,
}
