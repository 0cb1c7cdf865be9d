// The account of one month: what was billed for it, and what was paid.
ghost use Rattle.std.specs.Prelude.{◌≡◌, ◌^◌, ◌<◌};
ghost use Rattle.months.specs.Accounts.{month_exposure, outstanding, paid, settlement_due, fee_due, with_bill, with_payment};

use crate::terms::{BillKind, PaymentKind};

#[derive(Clone, Copy, Debug, PartialEq, Eq)]
pub struct MonthAccount {
    pub provisional: Option<i64>,
    pub formal: Option<i64>,
    pub fee: Option<i64>,
    pub settlement_paid: u64,
    pub fee_paid: u64,
}

impl MonthAccount {
    // Nothing was billed and nothing paid.
    pub const EMPTY: MonthAccount = MonthAccount {
        provisional: None,
        formal: None,
        fee: None,
        settlement_paid: 0,
        fee_paid: 0,
    };

    // How much of what is due was not paid, for settlement and fee apart.
    pub fn exposure(&self) -> u64
        ensures { result ≡ month_exposure self.now }
    {
        outstanding(self.settlement_due(), self.settlement_paid)
            + outstanding(self.fee_due(), self.fee_paid)
    }

    // The formal bill stands in the place of the provisional one.
    fn settlement_due(&self) -> i64
        ensures { result ≡ settlement_due self.now }
    {
        self.formal.or(self.provisional).unwrap_or(0)
    }

    fn fee_due(&self) -> i64
        ensures { result ≡ fee_due self.now }
    {
        self.fee.unwrap_or(0)
    }

    // The account with a bill in the place of the earlier one of its kind.
    pub fn with_bill(self, kind: BillKind, sum: i64) -> MonthAccount
        ensures { result ≡ with_bill kind sum self }
    {
        match kind {
            BillKind::Provisional => MonthAccount {
                provisional: Some(sum),
                ..self
            },
            BillKind::Formal => MonthAccount {
                formal: Some(sum),
                ..self
            },
            BillKind::Fee => MonthAccount {
                fee: Some(sum),
                ..self
            },
        }
    }

    // All that was paid of a kind.
    pub fn paid(&self, kind: PaymentKind) -> u64
        ensures { result ≡ paid kind self.now }
    {
        match kind {
            PaymentKind::Settlement => self.settlement_paid,
            PaymentKind::Fee => self.fee_paid,
        }
    }

    // The account with another sum of all that was paid of a kind.
    pub fn with_payment(self, kind: PaymentKind, paid: u64) -> MonthAccount
        ensures { result ≡ with_payment kind paid self }
    {
        match kind {
            PaymentKind::Settlement => MonthAccount {
                settlement_paid: paid,
                ..self
            },
            PaymentKind::Fee => MonthAccount {
                fee_paid: paid,
                ..self
            },
        }
    }
}

// The larger of 0 and what is due less what was paid.
fn outstanding(due: i64, paid: u64) -> u64
    ensures value { result ≡ outstanding due paid }
    ensures small { result < 2 ^ 63 }
{
    u64::try_from(due).map_or(0, |due| due.saturating_sub(paid))
}
