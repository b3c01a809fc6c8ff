// Tests of the layers on examples, a module for each layer.
#![tactic(auto)]

#[cfg(test)]
mod clauses;
#[cfg(test)]
mod filing;
#[cfg(test)]
mod literals;
#[cfg(test)]
mod reader;
