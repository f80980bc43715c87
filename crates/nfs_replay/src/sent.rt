//! The records that the lines of a script send, so that a later line can send one once more.
ghost use Rattle.std.specs.Prelude.{◌≡◌, [], None, Some, IfErr, IfOk, OnOk, option_map, slice_get};
ghost use Rattle.std.specs.Option.{option_copied, option_flatten};
ghost use Rattle.nfs_ask.specs.declared.script_fault.LineCause.TheVariants.{NoCall};
ghost use Rattle.nfs_replay.specs.Scripts.{FaultsBy};
ghost use Rattle.nfs_replay.specs.Sending.{Keeps, kept_of, sent_again, sent_at, sent_of};

use crate::line_fault::LineFault;
use nfs_ask::script_fault::LineCause;
use nfs_attrs::moment::Moment;
use nfs_exports::addr::Addr;
use std::alloc::{AllocError, Global};

/// A record that a line sends.
#[derive(Drop)]
pub struct SentRecord {
    /// Who sends it.
    pub addr: Addr,
    /// When it comes.
    pub moment: Moment,
    /// Its bytes, without record marks.
    pub bytes: Vec<u8>,
}

/// What each line so far sent, a record or none, in a run that keeps it; else nothing.
#[derive(Drop)]
pub struct SentRecords {
    alloc: Global,
    is_kept: bool,
    records: Vec<Option<SentRecord>>,
}

impl SentRecords {
    /// No line was run.
    pub(crate) fn new(alloc: Global, is_kept: bool) -> SentRecords
        ensures is_kept { result.is_kept ≡ is_kept }
        ensures kept { kept_of result ≡ [] }
    {
        SentRecords {
            alloc,
            is_kept,
            records: Vec::new(alloc),
        }
    }

    /// Keeps what the next line sent. Refused without memory.
    pub(crate) fn keep(&mut self, sent: &Option<SentRecord>) -> Result<(), AllocError>
        ensures { OnOk result (Keeps self.old (option_map sent_of sent.now) self.new) }
    {
        if !self.is_kept {
            return Ok(());
        }
        let copy = copy_of(self.alloc, sent)?;
        self.records.push(copy)?;
        Ok(())
    }

    /// The record of the line of this number, once more: at this moment and from this address, or those of
    /// that line. `NoCall` where it sent none.
    pub(crate) fn again(
        &self,
        line: u32,
        moment: Option<Moment>,
        addr: Option<Addr>,
    ) -> Result<SentRecord, LineFault>
        ensures sent { IfOk result (λ it. option_map (sent_again moment addr) (sent_at line (kept_of self.now)) ≡ Some (sent_of it)) }
        ensures fault { IfErr result (FaultsBy (λ cause. (cause ≡ NoCall) × (sent_at line (kept_of self.now) ≡ None))) }
    {
        let Some(first) = self.of_line(line) else {
            return Err(LineFault::OfLine(LineCause::NoCall));
        };
        Ok(SentRecord {
            addr: addr.unwrap_or(first.addr),
            moment: moment.unwrap_or(first.moment),
            bytes: bytes_of(self.alloc, first)?,
        })
    }

    // The record that the line of this number sent.
    fn of_line(&self, line: u32) -> Option<&SentRecord>
        ensures { option_map (λ it. sent_of it.now) result ≡ sent_at line (kept_of self.now) }
    {
        if line == 0 {
            return None;
        }
        record_at(self.records.as_slice(), line as usize - 1)
    }
}

// What was sent in this place, if a record was.
fn record_at(records: &[Option<SentRecord>], index: usize) -> Option<&SentRecord>
    ensures { option_copied result ≡ option_flatten (slice_get records.now index) }
{
    match records.get(index) {
        Some(sent) => sent.as_ref(),
        None => None,
    }
}

// The same record, if there is one.
fn copy_of(alloc: Global, sent: &Option<SentRecord>) -> Result<Option<SentRecord>, AllocError>
    ensures { IfOk result (λ copy. option_map sent_of copy ≡ option_map sent_of sent.now) }
{
    match sent {
        Some(record) => Ok(Some(SentRecord {
            addr: record.addr,
            moment: record.moment,
            bytes: bytes_of(alloc, record)?,
        })),
        None => Ok(None),
    }
}

// The same bytes as those of a record.
fn bytes_of(alloc: Global, sent: &SentRecord) -> Result<Vec<u8>, AllocError>
    ensures { IfOk result (λ bytes. bytes.items ≡ sent.now.bytes.items) }
{
    let mut bytes = Vec::new(alloc);
    bytes.extend_from_slice(sent.bytes.as_slice())?;
    Ok(bytes)
}
