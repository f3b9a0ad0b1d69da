// Examples of decoding, encoding, text and listing, worked out by hand.
#![tactic(auto)]

#[cfg(test)]
mod decoding;
#[cfg(test)]
mod encoding;
#[cfg(test)]
mod items;
#[cfg(test)]
mod printing;
#[cfg(test)]
mod texts;
