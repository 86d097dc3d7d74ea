// The working slices of settling.
use cuts::candidates::Lists;

// The sheet is no part of it: it keeps what is written, and these may end with anything. The ledger is of the caller's type.
/// The working slices, in the caller's memory: a place for each entry in each. They may hold anything, before and after.
#[derive(Drop)]
pub struct Work<'a> {
    pub numbers: &'a mut [u32],
    pub lists: Lists<'a>,
}
