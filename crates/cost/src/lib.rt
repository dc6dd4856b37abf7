// What a plan costs: quotes, the rules that join them to an amount, and each rule's word and text.
#![tactic(auto)]

// A price and the weeks that the work takes.
pub mod quote;

// What a cost rule is, and its laws.
pub mod rule;

// The rule `sum`.
pub mod sum;

// The rule `dearest`.
pub mod dearest;

// The rule `staged`.
pub mod staged;

// Two kinds of rule as one.
pub mod one_of_two;

// What a list of quotes costs.
pub mod total;

// The word of each rule in a sheet.
pub mod words;

// The text of an amount.
pub mod text;

// Each rule on a table worked by hand.
#[cfg(test)]
mod tests;
