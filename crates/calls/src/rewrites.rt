// Calls that begin anew, or hand out the rewritten manifest, which takes the file's place.
use crate::world::{Host, World};
use answers::call::Call;
use ids::limits::LONGEST_REWRITTEN;
use ids::refusal::Refusal;
use std::io::Write;
use version_manager::VersionManager;

impl World<'_> {
    pub fn fresh(&mut self, call: Call) -> Result<(), Refusal> {
        call.alone()?;
        let opened = VersionManager::fresh();
        self.manager = opened.manager;
        self.book = opened.book;
        self.host = Host::whole(0);
        let _ = writeln!(call.output, "fresh");
        Ok(())
    }

    // The file is kept, and the rewritten manifest takes its place.
    fn replaced(&mut self, manifest: &[u8]) {
        let len = self.host.len.min(self.file.len());
        let old = &mut *self.old;
        let kept = script::copy(&self.file[..len], old);
        let n = script::copy(manifest, self.file);
        self.host = Host::replaced(kept, n);
    }

    pub fn reopen(&mut self, call: Call) -> Result<(), Refusal> {
        call.alone()?;
        let mut out = [0u8; LONGEST_REWRITTEN];
        let room = call.room.min(LONGEST_REWRITTEN);
        let len = self.host.len.min(self.file.len());
        let done = storage::bootstrap(&self.file[..len], &mut out[..room]);
        let n = done.answer?;
        self.manager = done.manager;
        self.book = done.book;
        self.replaced(&out[..n.min(LONGEST_REWRITTEN)]);
        let _ = writeln!(call.output, "reopened,{n}");
        Ok(())
    }

    pub fn checkpoint(&mut self, call: Call) -> Result<(), Refusal> {
        call.alone()?;
        let mut out = [0u8; LONGEST_REWRITTEN];
        let room = call.room.min(LONGEST_REWRITTEN);
        let done = self.manager.checkpoint(&mut out[..room]);
        let n = self.taken(done)?;
        self.replaced(&out[..n.min(LONGEST_REWRITTEN)]);
        let _ = writeln!(call.output, "checkpointed,{n}");
        Ok(())
    }
}
