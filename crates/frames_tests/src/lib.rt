// Examples of lines, faults and units. Assumes nothing.
#![tactic(auto)]

#[cfg(test)]
mod tests;
#[cfg(test)]
mod unit_tests;
