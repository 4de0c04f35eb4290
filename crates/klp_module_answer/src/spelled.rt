//! How functions are spelled.
use klp_messages::Escaped;
use klp_module_matrix::{Changed, object_name};
use std::fmt;

/// How many functions are named in a line.
const NAMED: usize = 5;

/// A function with its object, as a catalog spells it: with its position if it isn't the first of its name.
#[derive(Clone, Copy)]
pub(crate) struct Spelled<'a>(pub(crate) Changed<'a>);

impl fmt::Display for Spelled<'_> {
    fn fmt<W: fmt::Write>(&self, f: &mut fmt::Formatter<W>) -> fmt::Result {
        let Changed {
            object,
            name,
            position,
        } = self.0;
        let object = object_name(object);
        write!(f, "{}:{}", Escaped(object), Escaped(name))?;
        if position > 1 {
            write!(f, ",{position}")?;
        }
        Ok(())
    }
}

/// The first functions of a list, and how many more there are.
#[derive(Clone, Copy)]
pub(crate) struct FunctionWords<'f, 'a>(pub(crate) &'f [Changed<'a>]);

impl fmt::Display for FunctionWords<'_, '_> {
    fn fmt<W: fmt::Write>(&self, f: &mut fmt::Formatter<W>) -> fmt::Result {
        for (number, function) in self.0.iter().take(NAMED).enumerate() {
            let comma = if number == 0 { "" } else { ", " };
            write!(f, "{comma}{}", Spelled(*function))?;
        }
        match self.0.len().saturating_sub(NAMED) {
            0 => Ok(()),
            more => write!(f, " and {more} more (--json names them)"),
        }
    }
}
