// What a neighbour proposes.
use change::Change;
use sheet::Payment;

// A change of the held sheet, and the payment that it adds or takes off.
#[derive(Clone, Copy)]
pub struct Proposal {
    pub change: Change,
    pub payment: Payment,
}
