//! Points, and rules: which points a rule allows, and the atoms that it is made of.
#![tactic(auto)]

mod atom;
mod covering;
mod entries;
pub mod laws;
mod point;
mod rule;

pub use atom::{Atom, Names, ResourceAtom, UrlAtom, atoms, resource_atom};
pub use covering::{after_slash, implies, resource_covers};
pub use entries::{
    is_listed, some_url_matches, some_word_matches, url_matches, without_stars, word_matches,
};
pub use point::{Point, ResourcePoint, UrlPoint};
pub use rule::allows;
