//! Tests of books: what is read, refused, written and made of rows.
#![tactic(auto)]

#[cfg(test)]
mod copies;
#[cfg(test)]
mod damage;
#[cfg(test)]
mod example;
#[cfg(test)]
mod keys;
#[cfg(test)]
mod limits;
#[cfg(test)]
mod malaxer;
#[cfg(test)]
mod rows;
#[cfg(test)]
mod support;
