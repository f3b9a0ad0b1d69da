// A part of an image as items: instructions and stray bytes.
#![tactic(auto)]

mod item;
mod items;
mod reading;

pub use item::Item;
pub use items::Items;
