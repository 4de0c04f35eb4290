//! Tests of what no contract says and no example shows:
//!
//! - what the program's arguments ask for
//! - the numbers of faults and refusals, and the names that faults print
//! - faults of images and catalogs that no text can have
//! - reads and writes that fail, and which lines stay done
//! - what no line of the console shows, and what `watch` finds
//! - what docs/LIBRARY.md shows
//! - catalogs that are cut after each of their bytes, checked by rules that don't read the catalogs
//!
//! The behaviour of a manager is proved, and the examples show what a script prints.
#![tactic(auto)]

#[cfg(test)]
mod broken;
#[cfg(test)]
mod callbacks;
#[cfg(test)]
mod cut;
#[cfg(test)]
mod cut_off;
#[cfg(test)]
mod image;
#[cfg(test)]
mod input;
#[cfg(test)]
mod large;
#[cfg(test)]
mod library;
#[cfg(test)]
mod looks;
#[cfg(test)]
mod managed;
#[cfg(test)]
mod names;
#[cfg(test)]
mod resolved;
#[cfg(test)]
mod spare;
#[cfg(test)]
mod watched;
#[cfg(test)]
mod words;
