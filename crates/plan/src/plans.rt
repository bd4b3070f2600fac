// A plan as the outside of a node.
ghost use Rattle.std.specs.Prelude.{◌≡◌, []};
ghost use Rattle.outcome.specs.Logs.{grown};
ghost use Rattle.plan.specs.Plans.{act_of, plan_of};

use crate::types::{Act, Plan};
use node_state::Route;
use outcome::{Fault, Outside};
use sheet::Sheet;
use std::alloc::Global;

impl Plan {
    // Nothing is to be done yet.
    pub fn new(heap: Global) -> Plan
        ensures { plan_of result ≡ [] }
    {
        Plan {
            acts: Vec::new(heap),
        }
    }

    fn add(&mut self, act: Act) -> Result<(), Fault>
        ensures { plan_of self.new ≡ grown result (plan_of self.old) (act_of act) }
    {
        self.acts.push(act)?;
        Ok(())
    }
}

impl Outside for Plan {
    ghost log = { plan_of };

    fn record_signed(&mut self, account: usize, sheet: &Sheet) -> Result<(), Fault> {
        self.add(Act::RecordSigned(account, *sheet))
    }

    fn record_both(&mut self, account: usize, sheet: &Sheet) -> Result<(), Fault> {
        self.add(Act::RecordBoth(account, *sheet))
    }

    fn record_passed(&mut self, lock: &[u8; 32], route: Route) -> Result<(), Fault> {
        self.add(Act::RecordPassed(*lock, route))
    }

    fn record_key(&mut self, key: &[u8; 32]) -> Result<(), Fault> {
        self.add(Act::RecordKey(*key))
    }

    fn sync(&mut self) -> Result<(), Fault> {
        self.add(Act::Sync)
    }

    fn send_sheet(&mut self, account: usize, sheet: &Sheet) -> Result<(), Fault> {
        self.add(Act::SendSheet(account, *sheet))
    }

    fn send_signature(&mut self, account: usize, number: u32) -> Result<(), Fault> {
        self.add(Act::SendSignature(account, number))
    }

    fn show_sheet(&mut self, account: usize, sheet: &Sheet) -> Result<(), Fault> {
        self.add(Act::ShowSheet(account, *sheet))
    }

    fn show_key(&mut self, account: usize, key: &[u8; 32]) -> Result<(), Fault> {
        self.add(Act::ShowKey(account, *key))
    }
}
