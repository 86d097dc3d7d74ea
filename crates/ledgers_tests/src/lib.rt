// Tests of the ledgers, and a client that posts to its own records.
#![tactic(auto)]

#[cfg(test)]
mod cases;
#[cfg(test)]
mod client;
