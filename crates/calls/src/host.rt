// Lines that stand for the host and the disk, and hand the room on.
use crate::world::{Host, World};
use answers::call::Call;
use answers::say;
use answers::say::NO_CALL;
use ids::refusal::Refusal;

impl World<'_> {
    pub fn room(&mut self, call: Call) -> Result<(), Refusal> {
        self.host.room = call.one()?;
        Ok(())
    }

    pub fn cut(&mut self, call: Call) -> Result<(), Refusal> {
        let n = call.one()?;
        self.host.cut(n);
        self.host.room = call.room;
        Ok(())
    }

    pub fn stale(&mut self, call: Call) -> Result<(), Refusal> {
        call.alone()?;
        self.host.room = call.room;
        if let Some(n) = self.host.old {
            let n = n.min(self.old.len());
            let file = &mut *self.file;
            let n = script::copy(&self.old[..n], file);
            self.host = Host {
                room: call.room,
                ..Host::replaced(n, n)
            };
        }
        Ok(())
    }

    // All after the first blank is the text, which is looked through before the file is changed.
    pub fn write(&mut self, call: Call) -> Result<(), Refusal> {
        let text = call.rest.strip_prefix(b" ").ok_or(NO_CALL)?;
        let n = script::written(text, self.scratch).ok_or(NO_CALL)?;
        let file = &mut *self.file;
        let n = script::copy(&self.scratch[..n], file);
        self.host = Host {
            room: call.room,
            ..Host::whole(n)
        };
        Ok(())
    }

    // The file's bytes are told.
    pub fn tell(&self, call: Call) -> Result<(), Refusal> {
        call.alone()?;
        let n = self.host.len.min(self.file.len());
        say::file(&self.file[..n], call.output);
        Ok(())
    }
}
