// The sector layer on examples: the worked run, the edges of each refusal, and a log entry that must not be merged for.

#![tactic(auto)]

#[cfg(test)]
mod tests;
