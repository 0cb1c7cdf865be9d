// What a party hands in with a posting: figures as they come, in their range or not.
#[derive(Clone, Copy, Debug, PartialEq, Eq)]
pub struct LetterTerms {
    pub number: u16,
    // A code, since one that stands for no kind is refused by the posting.
    pub kind: u8,
    pub sum: u32,
    pub first_day: u16,
    pub last_day: u16,
    pub target_month: u8,
}
