// The two parties that post into a book.
ghost use Rattle.std.specs.Prelude.{◌≡◌};
ghost use Rattle.refusals.specs.Codes.{ReadsCode};
ghost use Rattle.refusals.specs.Conditions.{Checked};
ghost use Rattle.refusals.specs.declared.Refusal.TheVariants.{UnknownParty};
ghost use Rattle.ledger.specs.Parties.{party_code, party_conditions};

use refusals::Refusal;

#[derive(Clone, Copy, Debug, PartialEq, Eq)]
pub enum Party {
    // The trading centre.
    Centre = 1,
    // The grid company.
    Grid = 2,
}

impl TryFrom<u8> for Party {
    type Error = Refusal;

    ghost try_from_gives = { ReadsCode party_code UnknownParty };

    fn try_from(code: u8) -> Result<Party, Refusal> {
        match code {
            1 => Ok(Party::Centre),
            2 => Ok(Party::Grid),
            _ => Err(Refusal::UnknownParty),
        }
    }
}

impl Party {
    // Whether a posting of this party's comes from it.
    pub fn admit(self, party: u8) -> Result<(), Refusal>
        ensures { Checked (party_conditions self party) result (λ _. Unit {0}) }
    {
        if Party::try_from(party)? != self {
            return Err(Refusal::OtherPartysKind);
        }
        Ok(())
    }
}
