// The table of a book's months: that of its opening, and the 35 after it.
ghost use Rattle.std.specs.Prelude.{◌≡◌, ◌-◌, ◌<◌, ◌≤◌, true, length, take, replicate, slice_set, sum_by};
ghost use Rattle.refusals.specs.Conditions.{CarriedOut, Checked};
ghost use Rattle.std.specs.List.{list_all};
ghost use Rattle.months.specs.Accounts.{month_exposure, no_account, sound_account};
ghost use Rattle.months.specs.Kinds.{bill_code, payment_code};
ghost use Rattle.months.specs.Postings.{bill_conditions, bill_range, billed, month_conditions, receipt_conditions, receipt_range, received};

use crate::account::MonthAccount;
use crate::terms::{BillKind, BillTerms, PaymentKind, ReceiptTerms};
use calendar::month::Month;
use refusals::Refusal;
use refusals::ranges::is_sum;

pub const MONTHS: usize = 36;

// No bill is further from 0, in fen, and no receipt takes what is paid for a month past it.
const MOST_DUE: i64 = 1_000_000_000_000;

const MOST_PAID: u64 = 1_000_000_000_000;

#[derive(Clone, Copy, Debug, PartialEq, Eq)]
pub struct MonthTable {
    // The month in which the book was opened.
    opening: u8,
    rows: [MonthAccount; MONTHS],
}

// What the account at a place of the table becomes.
#[derive(Clone, Copy, Debug, PartialEq, Eq)]
struct Change {
    index: usize,
    account: MonthAccount,
    ghost within: { index < 36 },
}

impl MonthTable {
    // The months of a book that is opened in this one: nothing was billed and nothing paid.
    pub fn new(opening: u8) -> MonthTable
        ensures opening { result.opening ≡ opening }
        ensures rows { result.rows ≡ replicate 36 no_account }
    {
        MonthTable {
            opening,
            rows: [MonthAccount::EMPTY; MONTHS],
        }
    }

    // The exposure of so many months, from the first on.
    pub fn exposure(&self, months: usize) -> u128
        ensures value { result ≡ sum_by month_exposure (take months self.now.rows) }
        ensures small { list_all sound_account self.now.rows ≡ true → result ≤ 72_000_000_000_000 }
    {
        self.rows[..months.min(MONTHS)]
            .iter()
            .map(|row| u128::from(row.exposure()))
            .sum()
    }

    // A bill takes the place of the earlier one of its kind.
    pub fn bill(&mut self, terms: BillTerms) -> Result<(), Refusal>
        ensures carried_out { CarriedOut (bill_conditions self.old.opening self.old.rows terms) self.old.rows (billed self.old.opening self.old.rows terms) result self.new.rows }
        ensures opening { self.new.opening ≡ self.old.opening }
    {
        let change = self.check_bill(terms)?;
        self.rows[change.index] = change.account;
        Ok(())
    }

    fn check_bill(&self, terms: BillTerms) -> Result<Change, Refusal>
        ensures { Checked (bill_conditions self.now.opening self.now.rows terms) result (λ change. slice_set self.now.rows change.index change.account ≡ billed self.now.opening self.now.rows terms) }
    {
        let kind = read_bill(terms)?;
        let index = self.place_of(terms.month)?;
        let account = self.rows[index];
        if kind == BillKind::Provisional && account.formal.is_some() {
            return Err(Refusal::FormalBillStands);
        }
        Ok(Change {
            index,
            account: account.with_bill(kind, terms.sum),
        })
    }

    // A payment is added to all that was paid of its kind.
    pub fn receive(&mut self, terms: ReceiptTerms) -> Result<(), Refusal>
        ensures carried_out { CarriedOut (receipt_conditions self.old.opening self.old.rows terms) self.old.rows (received self.old.opening self.old.rows terms) result self.new.rows }
        ensures opening { self.new.opening ≡ self.old.opening }
    {
        let change = self.check_receipt(terms)?;
        self.rows[change.index] = change.account;
        Ok(())
    }

    fn check_receipt(&self, terms: ReceiptTerms) -> Result<Change, Refusal>
        ensures { Checked (receipt_conditions self.now.opening self.now.rows terms) result (λ change. slice_set self.now.rows change.index change.account ≡ received self.now.opening self.now.rows terms) }
    {
        let kind = read_receipt(terms)?;
        let index = self.place_of(terms.month)?;
        let account = self.rows[index];
        let paid = account.paid(kind).saturating_add(u64::from(terms.sum));
        if paid > MOST_PAID {
            return Err(Refusal::TotalTooLarge);
        }
        Ok(Change {
            index,
            account: account.with_payment(kind, paid),
        })
    }

    // Where the account of a month stands.
    fn place_of(&self, month: u8) -> Result<usize, Refusal>
        ensures { Checked (month_conditions self.now.opening month) result (λ index. (index ≡ month - self.now.opening) × (index < 36)) }
    {
        month
            .checked_sub(self.opening)
            .map(usize::from)
            .filter(|&index| index < MONTHS)
            .ok_or(Refusal::MonthOutsideBook)
    }
}

// The kind of a bill, if every figure is in its range.
#[tactic(auto, using(crate::proofs::Codes::no_bill), unfolding(crate::specs::Postings::bill_in_range))]
fn read_bill(terms: BillTerms) -> Result<BillKind, Refusal>
    ensures { Checked (bill_range terms) result (λ kind. bill_code kind ≡ terms.code) }
{
    let kind = BillKind::try_from(terms.code)?;
    let least = if kind == BillKind::Fee { 0 } else { -MOST_DUE };
    if Month::new(terms.month).is_none() || !(least..=MOST_DUE).contains(&terms.sum) {
        return Err(Refusal::OutOfRange);
    }
    Ok(kind)
}

// The kind of a payment, if every figure is in its range.
#[tactic(auto, using(crate::proofs::Codes::no_payment))]
fn read_receipt(terms: ReceiptTerms) -> Result<PaymentKind, Refusal>
    ensures { Checked (receipt_range terms) result (λ kind. payment_code kind ≡ terms.code) }
{
    let kind = PaymentKind::try_from(terms.code)?;
    if Month::new(terms.month).is_none() || !is_sum(terms.sum) {
        return Err(Refusal::OutOfRange);
    }
    Ok(kind)
}
