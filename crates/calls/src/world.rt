// What stands between two lines: the manager, the pin book, and what the program knows as their host.
use ids::refusal::Refusal;
use pins::PinBook;
use version_manager::{Answered, VersionManager};

// Room that is more than any output is lent.
pub const ENOUGH: usize = usize::MAX;

// Arrays and not slices: with a slice each function would have to prove that its length stays. One for a line, one for a file.
pub type Line = [u8; 1048577];

pub type File = [u8; 1114112];

// What is known of the file, whose bytes lie in a buffer that the program lends.
#[derive(Clone, Copy)]
pub struct Host {
    pub len: usize,
    // Where the last append begins and ends, both the file's end where there was none.
    pub start: usize,
    pub end: usize,
    // The length of the file that the last accepted reopen or checkpoint replaced, where it is kept for `stale`.
    pub old: Option<usize>,
    // The room that the next answered call is lent for each of its outputs.
    pub room: usize,
}

#[derive(Drop)]
pub struct World<'a> {
    pub manager: VersionManager,
    pub book: PinBook,
    pub host: Host,
    pub file: &'a mut File,
    // The file that was replaced.
    pub old: &'a mut File,
    // For what a line says in digits or text.
    pub scratch: &'a mut Line,
}

// `n` past `start`, but not past `end`.
fn place(start: usize, n: usize, end: usize) -> usize {
    start + n.min(end.saturating_sub(start))
}

impl Host {
    // A file that comes whole.
    pub fn whole(len: usize) -> Host {
        Host {
            len,
            start: len,
            end: len,
            old: None,
            room: ENOUGH,
        }
    }

    // Such a file, with the one that it replaced kept.
    pub fn replaced(old: usize, len: usize) -> Host {
        Host {
            old: Some(old),
            ..Host::whole(len)
        }
    }

    // `n` bytes are appended at `start`, in a buffer of `most` bytes.
    pub fn appended(start: usize, n: usize, most: usize) -> Host {
        let end = place(start, n, most);
        Host {
            start,
            ..Host::whole(end)
        }
    }

    // Of the last append only the first `n` bytes are there.
    pub fn cut(&mut self, n: usize) {
        self.len = place(self.start, n, self.end);
    }
}

impl World<'_> {
    // The manager that an accepted call hands back takes the place of the old one.
    pub fn taken<T>(&mut self, done: Answered<T>) -> Result<T, Refusal> {
        let value = done.answer?;
        self.manager = done.manager;
        Ok(value)
    }
}
