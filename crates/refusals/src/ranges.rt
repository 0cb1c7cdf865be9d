// Whether a figure is in its range.
ghost use Rattle.std.specs.Prelude.{◌≡◌};
ghost use Rattle.refusals.specs.Ranges.{is_number, is_sum};

// The number of a letter or of a claim.
pub fn is_number(number: u16) -> bool
    ensures { result ≡ is_number number }
{
    (1..=9999).contains(&number)
}

// A sum of money, in fen.
pub fn is_sum(sum: u32) -> bool
    ensures { result ≡ is_sum sum }
{
    (1..=3_000_000_000).contains(&sum)
}
