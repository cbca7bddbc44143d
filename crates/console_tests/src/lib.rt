// The line runner on inputs that a program's standard input cannot show beside others: none, only ends of lines, and the longest.

#![tactic(auto)]

#[cfg(test)]
mod empty;
#[cfg(test)]
mod tests;
