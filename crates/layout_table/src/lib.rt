// Tests of the layouts by rows of steps and answers.
#![tactic(auto)]

#[cfg(test)]
mod tests;
