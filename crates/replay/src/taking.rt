// Taking a record into the node, where it fits.
ghost use Rattle.std.specs.Prelude.{◌≡◌, is_ok, if◌then◌else◌};
ghost use Rattle.node_state.specs.Nodes.{state_of};
ghost use Rattle.journal.specs.Readings.{record_of};
ghost use Rattle.replay.specs.Fits.{fits, is_first};
ghost use Rattle.replay.specs.Takes.{taken, Took};

use crate::fitting::fits;
use crate::types::StartFault;
use digest::lock as lock_of;
use journal::Record;
use node_state::{Node, Route};
use outcome::{note_both, note_signed};
use std::alloc::AllocError;

// A first sheet opens an account: there is room for it where it fits. A key that is known already changes nothing.
fn take(node: &mut Node, record: &Record) -> Result<(), AllocError>
    ensures { state_of node.new ≡ (if is_ok result then taken (record_of «record».now) (state_of node.old) else state_of node.old) }
{
    match record {
        Record::Signed(sheet) => note_signed(node, usize::from(sheet.account), sheet),
        Record::Both(sheet) => {
            if sheet.number == 0 {
                node.open_account(sheet.own, sheet.theirs);
            } else {
                note_both(node, usize::from(sheet.account), sheet);
            }
        }
        Record::Passed { lock, from, to } => node.add_route(
            *lock,
            Route {
                from: *from,
                to: *to,
            },
        )?,
        Record::Key(key) => node.add_key(lock_of(key), *key)?,
    }
    Ok(())
}

pub(crate) fn is_first(record: &Record) -> bool
    ensures { result ≡ is_first (record_of «record».now) }
{
    matches!(record, Record::Both(sheet) if sheet.number == 0)
}

// Takes the record at a place, after others than first sheets or not.
pub(crate) fn take_record(
    node: &mut Node,
    others: bool,
    record: &Record,
    at: usize,
) -> Result<(), StartFault>
    ensures { Took (fits (record_of «record».now) others (state_of node.old)) (state_of node.old) (taken (record_of «record».now) (state_of node.old)) at result (state_of node.new) }
{
    if !fits(node, others, record) {
        return Err(StartFault::Damaged { at });
    }
    take(node, record)?;
    Ok(())
}
