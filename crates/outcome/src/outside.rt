// What a node does to the outside: to its file, its neighbours and the register.
ghost use Rattle.std.specs.Prelude.{◌≡◌, List};
ghost use Rattle.sheet.specs.Contents.{content_of};
ghost use Rattle.outcome.specs.Acts.{Act, signed_in, both_in, passed_on, key_is, recorded, synced, sent_sheet, sent_signature, shown_sheet, shown_key};
ghost use Rattle.outcome.specs.Logs.{grown};

use crate::types::Fault;
use node_state::Route;
use sheet::Sheet;

// `log` is what was done so far. What fails isn't done, and adds nothing to the log.
pub trait Outside {
    ghost log: { Self → List Act };

    // The node has signed the sheet as the next of the account.
    fn record_signed(&mut self, account: usize, sheet: &Sheet) -> Result<(), Fault>
        ensures { log self.new ≡ grown result (log self.old) (recorded (signed_in account (content_of sheet.now))) };

    // Both have signed the sheet.
    fn record_both(&mut self, account: usize, sheet: &Sheet) -> Result<(), Fault>
        ensures { log self.new ≡ grown result (log self.old) (recorded (both_in account (content_of sheet.now))) };

    // The lock was passed on.
    fn record_passed(&mut self, lock: &[u8; 32], route: Route) -> Result<(), Fault>
        ensures { log self.new ≡ grown result (log self.old) (recorded (passed_on lock.now route.from route.to)) };

    fn record_key(&mut self, key: &[u8; 32]) -> Result<(), Fault>
        ensures { log self.new ≡ grown result (log self.old) (recorded (key_is key.now)) };

    // All that was recorded outlasts a stop from now on.
    fn sync(&mut self) -> Result<(), Fault>
        ensures { log self.new ≡ grown result (log self.old) synced };

    // To the neighbour of the account: the sheet with the node's signature under it.
    fn send_sheet(&mut self, account: usize, sheet: &Sheet) -> Result<(), Fault>
        ensures { log self.new ≡ grown result (log self.old) (sent_sheet account (content_of sheet.now)) };

    // To the neighbour of the account: the node's signature under the sheet with that number.
    fn send_signature(&mut self, account: usize, number: u32) -> Result<(), Fault>
        ensures { log self.new ≡ grown result (log self.old) (sent_signature account number) };

    // To the register, for the account.
    fn show_sheet(&mut self, account: usize, sheet: &Sheet) -> Result<(), Fault>
        ensures { log self.new ≡ grown result (log self.old) (shown_sheet account (content_of sheet.now)) };

    fn show_key(&mut self, account: usize, key: &[u8; 32]) -> Result<(), Fault>
        ensures { log self.new ≡ grown result (log self.old) (shown_key account key.now) };
}
