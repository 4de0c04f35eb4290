//! Finds the word of a faulty file that is wrong, and says what is wanted in its place.
//!
//! A program knows only the kind of a fault and its line. This crate reads the line again, as text, to find the word at
//! fault. In a catalog, it uses the forms of lines (`src/catalog_fault.rt`, `form.rt`). In a trace, it uses the names
//! of the catalog (`item.rt`, `names.rt`). `image.rt` finds symbols of which no image can be made, and `same_site.rt`
//! finds functions that are for one site. The result is a [`Wrong`](wrong::Wrong), which can be written as a sentence.
//!
//! There are two kinds of hints. One kind points at words that mean something in files of other kinds, but nothing in
//! this file (`stray.rt`). The other kind points at a function of the catalog whose symbol can't be picked
//! (`unpicked.rt`), and adds a name that is spelled similarly (`near.rt`).
//!
//! The sentences and hints are for people, and have no contract. No bytes of a file can control a terminal through them
//! (`klp_messages`). Each call works with any files.
#![tactic(auto)]

pub mod catalog_fault;
mod form;
pub mod image;
pub mod item;
pub mod names;
mod near;
pub mod same_site;
pub mod stray;
pub mod unpicked;
pub mod wrong;
