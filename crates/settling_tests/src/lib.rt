// The tests of settling, booking, noting, taking up and voiding.
#![tactic(auto)]

#[cfg(test)]
mod blocks;
#[cfg(test)]
mod days;
#[cfg(test)]
mod settles;
#[cfg(test)]
mod voids;
