//! Writes the catalog of what a log names, as text.
use crate::named::{Functions, SeenFunction};
use klp_capture::Text;
use klp_types::MAX_SYMBOL_NAME;
use klp_words::is_name;
use std::alloc::{AllocError, Global};

/// The first five bytes of a function that can be patched: a NOP.
const NOP: &str = "0f1f440000";

/// Returns the name of a symbol, cut to the length that a catalog allows.
fn cut_name(name: &[u8]) -> Text<'_> {
    Text(name.get(..MAX_SYMBOL_NAME).unwrap_or(name))
}

impl Functions<'_> {
    /// Writes the symbol of a function, as the console spells it.
    pub fn write_symbol(
        &self,
        text: &mut String,
        function: &SeenFunction<'_>,
    ) -> Result<(), AllocError> {
        let object = Text(self.objects.get(function.object).copied().unwrap_or(b""));
        let name = cut_name(function.name);
        let position = function.position;
        write!(text, ".klp.sym.{object}.{name},{position}")
    }

    fn write_objects(&self, text: &mut String) -> Result<(), AllocError> {
        for (number, object) in self.objects.iter().enumerate() {
            let object = Text(*object);
            writeln!(text, "object {object}")?;
            for symbol in &self.symbols {
                if symbol.object == number {
                    let name = cut_name(symbol.name);
                    let address = symbol.address;
                    writeln!(text, "symbol {name} {address:x} {NOP}")?;
                }
            }
        }
        Ok(())
    }

    fn write_function(
        &self,
        text: &mut String,
        number: usize,
        function: &SeenFunction<'_>,
    ) -> Result<(), AllocError> {
        text.push_str("func ")?;
        self.write_symbol(text, function)?;
        let address = function.new_address;
        match function.new_name {
            Some(name) if is_name(name) => {
                let name = Text(name);
                writeln!(text, " {name} {address:x}")
            }
            _ => writeln!(text, " new_function_{number} {address:x}"),
        }
    }

    /// Writes the functions that a patch changes in an object, and what is known of its callbacks there.
    fn write_target(
        &self,
        text: &mut String,
        patch: usize,
        object: usize,
    ) -> Result<(), AllocError> {
        let mut is_begun = false;
        let name = self.objects.get(object).copied().unwrap_or(b"");
        for (number, function) in self.functions.iter().enumerate() {
            if function.patch == Some(patch)
                && function.object == object
                && function.index.is_some()
            {
                if !is_begun {
                    let name = Text(name);
                    writeln!(text, "target {name}")?;
                    is_begun = true;
                }
                self.write_function(text, number, function)?;
            }
        }
        match self.patches.get(patch) {
            Some(patch) if is_begun => self.known.write_callbacks(text, patch.name, name),
            _ => Ok(()),
        }
    }

    /// Returns the text of a catalog of all that the log names, with the system states and callbacks that are known.
    pub fn catalog(&self, alloc: Global) -> Result<String, AllocError> {
        let handler = self.handler;
        let mut text = format!(in alloc; "handler {handler:x}\n")?;
        self.write_objects(&mut text)?;
        for (number, patch) in self.patches.iter().enumerate() {
            let name = Text(patch.name);
            let kind = if patch.is_cumulative { " replace" } else { "" };
            writeln!(text, "patch {name}{kind}")?;
            self.known.write_states(&mut text, patch.name)?;
            for object in 0..self.objects.len() {
                self.write_target(&mut text, number, object)?;
            }
        }
        Ok(text)
    }
}
