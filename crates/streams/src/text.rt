// The text of an error.
use std::fmt::Write as _;
use std::{fmt, io, str};

// The most bytes of a text. What has no room is left out.
const TEXT_BYTES: usize = 256;

// Bytes that are written, and how many they are.
#[derive(Drop)]
pub(crate) struct Text {
    bytes: [u8; TEXT_BYTES],
    size: usize,
}

impl Text {
    pub(crate) fn of(error: io::Error) -> Text {
        let mut text = Text {
            bytes: [0; TEXT_BYTES],
            size: 0,
        };
        let _ = write!(text, "{error}");
        text
    }

    // The text up to the number of the error, which std puts after the words of the system.
    pub(crate) fn words(&self) -> &[u8] {
        let size = self.size;
        if TEXT_BYTES < size {
            return b"";
        }
        let Ok(text) = str::from_utf8(&self.bytes[..size]) else {
            return b"";
        };
        match text.split_once(" (os error ") {
            Some((words, _)) => words.as_bytes(),
            None => text.as_bytes(),
        }
    }
}

impl fmt::Write for Text {
    fn write_str(&mut self, s: &str) -> fmt::Result {
        for byte in s.as_bytes() {
            let size = self.size;
            if TEXT_BYTES <= size {
                return Ok(());
            }
            self.bytes[size] = *byte;
            self.size = size + 1;
        }
        Ok(())
    }
}
