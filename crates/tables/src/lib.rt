// Walks over the rows of any table, however many there are: the first row that passes a test, and the total of what the rows
// add. They ask nothing of their caller, which the library's walks do.
#![tactic(auto)]

ghost use Rattle.std.specs.Prelude.{◌≡◌, ℕ, ◌<◌, Bool, length, IfSome, sum_by};
ghost use Rattle.tables.specs.Rows.{FindsFirst};

// A question that a row answers by yes or no.
pub trait RowTest<Row> {
    ghost passes: { Self → Row → Bool };

    fn test(&self, row: &Row) -> bool
        ensures { result ≡ passes self.now row.now };
}

// What a row adds to a total.
pub trait RowAmount<Row> {
    ghost adds: { Self → Row → ℕ };

    fn amount(&self, row: &Row) -> u64
        ensures { result ≡ adds self.now row.now };
}

pub fn first_place<Row, Q: RowTest<Row>>(rows: &[Row], question: &Q) -> Option<usize>
    ensures first { FindsFirst (Q.passes question.now) rows.now (λ i. i) result }
    ensures within { IfSome result (λ i. i < length rows.now) }
{
    let index = rows.iter().position(|row| question.test(row))?;
    Some(index)
}

// However many rows there are, 128 bits hold the total.
pub fn total<Row, A: RowAmount<Row>>(rows: &[Row], measure: &A) -> u128
    ensures { result ≡ sum_by (A.adds measure.now) rows.now }
{
    rows.iter().map(|row| u128::from(measure.amount(row))).sum()
}
