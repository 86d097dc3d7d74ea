/// An amount, of either sign, for one account.
#[derive(Clone, Copy, PartialEq, Eq, Debug)]
pub struct Posting {
    pub account: u32,
    pub amount: i64,
}
