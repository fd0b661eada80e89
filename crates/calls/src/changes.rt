// Calls that alter the manager or the pin book, and touch nothing else.
use crate::world::World;
use answers::call::Call;
use answers::groups::Grouping;
use answers::say::NO_CALL;
use ids::TableNo;
use ids::refusal::Refusal;
use pinning::Readiness;
use script::handles;
use std::io::Write;
use transaction::MOST_HANDLES;
use version_manager::{Locked, VersionManager};

// A record has at most 7 bytes.
const FILE_BYTES: usize = 7 * MOST_HANDLES;

impl World<'_> {
    pub fn draw(&mut self, call: Call) -> Result<(), Refusal> {
        let id = match call.rest {
            b" rowset" => {
                let done = self.manager.draw_rowset();
                u64::from(self.taken(done)?.0)
            }
            b" vector" => {
                let done = self.manager.draw_vector();
                self.taken(done)?.0
            }
            _ => return Err(NO_CALL),
        };
        let _ = writeln!(call.output, "drawn,{id}");
        Ok(())
    }

    pub fn vacuum(&mut self, call: Call) -> Result<(), Refusal> {
        call.alone()?;
        call.pairs("vacuumed", |tables, rowsets| {
            let done = self.manager.vacuum(self.book, tables, rowsets);
            self.taken(done)
        })
    }

    // Internal. Rattle asks for this clause of each function that calls a closure, so that no other form is plainer.
    pub fn with_lock<F: FnOnce(VersionManager, TableNo) -> Locked + Drop>(
        &mut self,
        call: Call,
        step: F,
        word: &str,
    ) -> Result<(), Refusal>
        requires { F.IsAlwaysCallable step }
    {
        let table = TableNo(call.one()?);
        let done = step(self.manager, table);
        self.taken(done)?;
        let _ = writeln!(call.output, "{word}");
        Ok(())
    }

    pub fn group(&mut self, call: Call) -> Result<(), Refusal> {
        let handles = handles::handles(call.rest).ok_or(NO_CALL)?;
        let mut rowsets = [0u32; MOST_HANDLES];
        let mut lengths = [0u32; MOST_HANDLES];
        let mut counts = [0u32; MOST_HANDLES];
        let mut files = [0u8; FILE_BYTES];
        let mut rows = [0u32; MOST_HANDLES];
        let n = call.room.min(MOST_HANDLES);
        let bytes = call.room.min(FILE_BYTES);
        let done = self.manager.group(
            handles,
            &mut rowsets[..n],
            &mut lengths[..n],
            &mut counts[..n],
            &mut files[..bytes],
            &mut rows[..n],
        );
        let made = self.taken(done)?;
        let grouping = Grouping {
            rowsets: &rowsets,
            lengths: &lengths,
            counts: &counts,
            files: &files,
            rows: &rows,
        };
        grouping.say(made, call.output);
        Ok(())
    }

    pub fn pin(&mut self, call: Call) -> Result<(), Refusal> {
        call.alone()?;
        let epoch = pinning::pin(self.manager, &mut self.book)?;
        let _ = writeln!(call.output, "pinned,{epoch}");
        Ok(())
    }

    pub fn unpin(&mut self, call: Call) -> Result<(), Refusal> {
        let epoch = call.one()?;
        let Readiness { due, ready } = pinning::unpin(self.manager, &mut self.book, epoch)?;
        let due = u8::from(due);
        let _ = writeln!(call.output, "unpinned,{due},{ready}");
        Ok(())
    }
}
