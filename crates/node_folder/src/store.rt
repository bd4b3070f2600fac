// The node's file: records are appended to it, and it is synced.
use crate::acts::{push_key, push_send, push_show, push_signature};
use journal::{Record, push_record};
use node_state::Route;
use plan::Act;
use std::alloc::{AllocError, Global};
use std::fs::File;
use std::io::Write;

// The open file, and the bytes of records that are not in it yet.
#[derive(Drop)]
pub(crate) struct Store {
    file: File,
    pending: Vec<u8>,
}

impl Store {
    pub(crate) fn new(heap: Global, file: File) -> Store {
        Store {
            file,
            pending: Vec::new(heap),
        }
    }

    pub(crate) fn append(&mut self, record: &Record) -> Result<(), AllocError> {
        push_record(&mut self.pending, record)
    }

    fn write_pending(&mut self) -> anyhow::Result<()> {
        self.file.write_all(self.pending.as_slice())?;
        self.pending.clear();
        Ok(())
    }

    // What is pending is in the file, and outlasts a stop.
    pub(crate) fn sync(&mut self) -> anyhow::Result<()> {
        self.write_pending()?;
        self.file.sync_data()?;
        Ok(())
    }

    // Length and contents outlast a stop: what an earlier program wrote too. This and `sync` differ in the library's call.
    pub(crate) fn sync_all(&mut self) -> anyhow::Result<()> {
        self.write_pending()?;
        self.file.sync_all()?;
        Ok(())
    }

    pub(crate) fn cut_back(&mut self, length: u64) -> anyhow::Result<()> {
        self.file.set_len(length)?;
        Ok(())
    }

    fn carry(&mut self, heap: Global, act: &Act, out: &mut Vec<u8>) -> anyhow::Result<()> {
        match *act {
            Act::RecordSigned(_, sheet) => self.append(&Record::Signed(sheet))?,
            Act::RecordBoth(_, sheet) => self.append(&Record::Both(sheet))?,
            Act::RecordPassed(lock, Route { from, to }) => {
                self.append(&Record::Passed { lock, from, to })?
            }
            Act::RecordKey(key) => self.append(&Record::Key(key))?,
            Act::Sync => self.sync()?,
            Act::SendSheet(account, sheet) => push_send(out, heap, account, &sheet)?,
            Act::SendSignature(account, number) => push_signature(out, account, number)?,
            Act::ShowSheet(account, sheet) => push_show(out, heap, account, &sheet)?,
            Act::ShowKey(account, key) => push_key(out, account, &key)?,
        }
        Ok(())
    }

    // Carries out the acts in their order; what leaves the node is gathered in `out`, behind the sync before it.
    pub(crate) fn carry_out(
        &mut self,
        heap: Global,
        acts: &[Act],
        out: &mut Vec<u8>,
    ) -> anyhow::Result<()> {
        for act in acts {
            self.carry(heap, act, out)?;
        }
        Ok(())
    }
}
