// Examples of posts and their memories. Assumes nothing.
#![tactic(auto)]

#[cfg(test)]
mod tests;
