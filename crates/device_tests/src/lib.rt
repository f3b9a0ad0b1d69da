// Examples of descriptions, memory maps and the lines of refusals, worked out by hand.
#![tactic(auto)]

#[cfg(test)]
mod lines;
#[cfg(test)]
mod maps;
#[cfg(test)]
mod records;
