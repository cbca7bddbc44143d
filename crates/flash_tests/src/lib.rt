// Devices on examples: every refusal in its order, what a program and an erase leave in an image, joins and windows at their edges.

#![tactic(auto)]

#[cfg(test)]
mod bare;
#[cfg(test)]
mod tests;
