// What the grid company hands in of a month: figures as they come, in their range or not.
ghost use Rattle.refusals.specs.Codes.{ReadsCode};
ghost use Rattle.refusals.specs.declared.Refusal.TheVariants.{OutOfRange};
ghost use Rattle.months.specs.Kinds.{bill_code, payment_code};

use refusals::Refusal;

#[derive(Clone, Copy, Debug, PartialEq, Eq)]
pub enum BillKind {
    Provisional = 1,
    Formal = 2,
    Fee = 3,
}

#[derive(Clone, Copy, Debug, PartialEq, Eq)]
pub enum PaymentKind {
    Settlement = 1,
    Fee = 2,
}

#[derive(Clone, Copy, Debug, PartialEq, Eq)]
pub struct BillTerms {
    pub month: u8,
    // A code that stands for no kind is refused by the posting.
    pub code: u8,
    pub sum: i64,
}

#[derive(Clone, Copy, Debug, PartialEq, Eq)]
pub struct ReceiptTerms {
    pub month: u8,
    // A code that stands for no kind is refused by the posting.
    pub code: u8,
    pub sum: u32,
}

impl TryFrom<u8> for BillKind {
    type Error = Refusal;

    ghost try_from_gives = { ReadsCode bill_code OutOfRange };

    fn try_from(code: u8) -> Result<BillKind, Refusal> {
        match code {
            1 => Ok(BillKind::Provisional),
            2 => Ok(BillKind::Formal),
            3 => Ok(BillKind::Fee),
            _ => Err(Refusal::OutOfRange),
        }
    }
}

impl TryFrom<u8> for PaymentKind {
    type Error = Refusal;

    ghost try_from_gives = { ReadsCode payment_code OutOfRange };

    fn try_from(code: u8) -> Result<PaymentKind, Refusal> {
        match code {
            1 => Ok(PaymentKind::Settlement),
            2 => Ok(PaymentKind::Fee),
            _ => Err(Refusal::OutOfRange),
        }
    }
}
