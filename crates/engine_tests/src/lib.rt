// The tests of the book and its verdict, as tables of cases at the edges.
#![tactic(auto)]

#[cfg(test)]
mod books;
#[cfg(test)]
mod bounds;
#[cfg(test)]
mod papers;
#[cfg(test)]
mod texts;
