//! Tests of the crates that read a source and name what it declares: the heights and the shapes of trees, the rows and
//! the limits of class tables, and the look-ups of names. There is nothing here but tests; they stand apart from the
//! crates that they try, so that each of these is proved once. What more there is to try stands in the tables of
//! `token_rows`, `parse_rows` and `check_sources`.
#![tactic(auto)]

#[cfg(test)]
mod heights;
#[cfg(test)]
mod limits;
#[cfg(test)]
mod names;
#[cfg(test)]
mod places;
#[cfg(test)]
mod reading;
#[cfg(test)]
mod rows;
#[cfg(test)]
mod scopes;
#[cfg(test)]
mod shapes;
#[cfg(test)]
mod types;
