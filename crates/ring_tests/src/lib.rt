// Examples of scripts that are played on a ring of two posts. Assumes nothing.
#![tactic(auto)]

#[cfg(test)]
mod tests;
