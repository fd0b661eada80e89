// Shows, and what the manager holds: calls that change nothing.
use crate::call::Call;
use crate::say;
use crate::say::NO_CALL;
use ids::limits::{LONGEST_NAME, MOST_HELD, MOST_TABLES, NAME_BYTES};
use ids::refusal::Refusal;
use pins::PinBook;
use std::io::Write;
use version_manager::VersionManager;

// What a manager shows at an epoch, which the book may pin.
#[derive(Clone, Copy)]
struct Shown {
    manager: VersionManager,
    book: PinBook,
    epoch: u32,
}

impl Shown {
    // An entry of the names has room for the longest one.
    fn tables(self, call: Call) -> Result<(), Refusal> {
        let mut ids = [0u32; MOST_TABLES];
        let mut shapes = [0u32; MOST_TABLES];
        let mut lengths = [0u32; MOST_TABLES];
        let mut names = [0u8; NAME_BYTES];
        let n = call.room.min(MOST_TABLES);
        let bytes = NAME_BYTES.min(LONGEST_NAME * n);
        let n = self.manager.show_tables(
            self.book,
            self.epoch,
            &mut ids[..n],
            &mut shapes[..n],
            &mut lengths[..n],
            &mut names[..bytes],
        )?;
        let names = names.chunks_exact(LONGEST_NAME);
        let tables = ids.iter().zip(&shapes).zip(&lengths).zip(names);
        say::list("tables", n, tables, call.output);
        Ok(())
    }

    fn pairs(self, call: Call) -> Result<(), Refusal> {
        call.pairs("pairs", |tables, rowsets| {
            self.manager
                .show_pairs(self.book, self.epoch, tables, rowsets)
        })
    }

    fn vectors(self, call: Call) -> Result<(), Refusal> {
        let mut tables = [0u32; MOST_HELD];
        let mut rowsets = [0u32; MOST_HELD];
        let mut vectors = [0u64; MOST_HELD];
        let n = call.room.min(MOST_HELD);
        let n = self.manager.show_vectors(
            self.book,
            self.epoch,
            &mut tables[..n],
            &mut rowsets[..n],
            &mut vectors[..n],
        )?;
        let all = tables.iter().zip(&rowsets).zip(&vectors);
        say::list("vectors", n, all, call.output);
        Ok(())
    }
}

impl Call<'_> {
    // A match: each word has a call of its own, so a table of functions would be no plainer.
    pub fn show(mut self, manager: VersionManager, book: PinBook) -> Result<(), Refusal> {
        let what = self.word()?;
        let epoch = self.one()?;
        let shown = Shown {
            manager,
            book,
            epoch,
        };
        match what {
            b"tables" => shown.tables(self),
            b"pairs" => shown.pairs(self),
            b"vectors" => shown.vectors(self),
            _ => Err(NO_CALL),
        }
    }

    pub fn state(self, manager: VersionManager) -> Result<(), Refusal> {
        self.alone()?;
        let inner = manager.inner;
        let epoch = inner.epoch;
        let table = inner.next.table.0;
        let rowset = inner.next.rowset.0;
        let vector = inner.next.vector.0;
        let manifest = inner.manifest;
        let _ = writeln!(
            self.output,
            "state,{epoch},{table},{rowset},{vector},{manifest}"
        );
        Ok(())
    }
}
