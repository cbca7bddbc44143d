// The check of chip images on examples: every refusal at every section and place, the smallest and the largest image, and the lines of `look`.

#![tactic(auto)]

#[cfg(test)]
mod tests;
