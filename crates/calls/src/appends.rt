// Calls that append to the file.
use crate::world::{File, Host, World};
use answers::call::Call;
use answers::output::Output;
use answers::say::NO_CALL;
use ids::limits::MOST_OPERATIONS;
use ids::refusal::Refusal;
use ids::{RowsetNo, TableNo};
use script::batches;
use std::io::Write;
use version_manager::{Appended, Committed, NewTable, TakenBack};

// One more rowset than a compaction may take, so that too many are seen.
const MOST_TAKEN: usize = MOST_OPERATIONS + 1;

// A dash stands for no new rowset.
fn read_new(s: &[u8]) -> Option<Option<RowsetNo>> {
    match s {
        b"-" => Some(None),
        _ => Some(Some(RowsetNo(script::number(s)?))),
    }
}

// What is lent behind the file, as far as the room goes.
fn behind(file: &mut File, len: usize, room: usize) -> &mut [u8] {
    let start = len.min(file.len());
    let n = room.min(file.len() - start);
    &mut file[start..start + n]
}

impl World<'_> {
    // `n` bytes are appended.
    fn appended(&mut self, n: usize) {
        let most = self.file.len();
        let start = self.host.len.min(most);
        self.host = Host::appended(start, n, most);
    }

    // A commit is answered by the call's own word.
    fn committed(
        &mut self,
        word: &str,
        done: Committed,
        output: &mut Output,
    ) -> Result<(), Refusal> {
        let Appended { epoch, length } = self.taken(done)?;
        self.appended(length);
        let _ = writeln!(output, "{word},{epoch},{length}");
        Ok(())
    }

    pub fn commit(&mut self, call: Call) -> Result<(), Refusal> {
        let out = behind(self.file, self.host.len, call.room);
        let done = self.manager.commit(batches::batch(call.rest), out);
        self.committed("committed", done, call.output)
    }

    pub fn create(&mut self, mut call: Call) -> Result<(), Refusal> {
        let shape = call.number()?;
        let name = script::name(call.rest);
        let out = behind(self.file, self.host.len, call.room);
        let done = self.manager.create(shape, name, out);
        let NewTable {
            table,
            epoch,
            length,
        } = self.taken(done)?;
        self.appended(length);
        let id = table.0;
        let _ = writeln!(call.output, "created,{id},{epoch},{length}");
        Ok(())
    }

    pub fn drop(&mut self, call: Call) -> Result<(), Refusal> {
        let table = TableNo(call.one()?);
        let out = behind(self.file, self.host.len, call.room);
        let done = self.manager.drop(table, out);
        self.committed("dropped", done, call.output)
    }

    pub fn compact(&mut self, mut call: Call) -> Result<(), Refusal> {
        let mut taken = [0u32; MOST_TAKEN];
        let table = TableNo(call.number()?);
        let new = read_new(call.word()?).ok_or(NO_CALL)?;
        let count = call.numbers(&mut taken)?;
        let out = behind(self.file, self.host.len, call.room);
        let done = self.manager.compact(table, new, &taken[..count], out);
        self.committed("compacted", done, call.output)
    }

    // The file keeps the bytes that landed, and the append is not cut any more.
    pub fn report(&mut self, call: Call) -> Result<(), Refusal> {
        let landed = call.one()?;
        let done = self.manager.report(self.book, landed);
        let TakenBack { epoch, manifest } = self.taken(done)?;
        self.host.cut(landed);
        self.host = Host::whole(self.host.len);
        let _ = writeln!(call.output, "reported,{epoch},{manifest}");
        Ok(())
    }
}
