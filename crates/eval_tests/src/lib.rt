//! Tests of the evaluation of expressions, over both stores.
#![tactic(auto)]

#[cfg(test)]
mod budgets;
#[cfg(test)]
mod classes;
#[cfg(test)]
mod collected;
#[cfg(test)]
mod collections;
#[cfg(test)]
mod connectives;
#[cfg(test)]
mod copies;
#[cfg(test)]
mod decided;
#[cfg(test)]
mod environments;
#[cfg(test)]
mod folds;
#[cfg(test)]
mod foreign;
#[cfg(test)]
mod names;
#[cfg(test)]
mod objects;
#[cfg(test)]
mod operators;
#[cfg(test)]
mod quantifiers;
#[cfg(test)]
mod selections;
#[cfg(test)]
mod values;
#[cfg(test)]
mod worked;
