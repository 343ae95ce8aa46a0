//! The texts of deployments that cases speak of.

use std::alloc::{AllocError, Global};

/// A text and its name.
#[derive(Drop)]
struct Named {
    name: String,
    text: String,
}

/// The texts so far, and whether the last of them goes on.
#[derive(Drop)]
pub struct Texts {
    alloc: Global,
    all: Vec<Named>,
    open: bool,
}

impl Texts {
    /// No text yet.
    pub fn new(alloc: Global) -> Self {
        Texts {
            alloc,
            all: Vec::new(alloc),
            open: false,
        }
    }

    /// Whether the line belongs to a text: it begins one, is one of its lines, or ends it.
    pub fn takes(&mut self, line: &str) -> Result<bool, AllocError> {
        if self.open {
            self.goes_on(line)?;
            return Ok(true);
        }
        let Some(name) = line.strip_prefix("text ") else {
            return Ok(false);
        };
        let name = String::from_str(self.alloc, name)?;
        let text = String::new(self.alloc);
        self.all.push(Named { name, text })?;
        self.open = true;
        Ok(true)
    }

    // A line of the text that is open, or its end.
    fn goes_on(&mut self, line: &str) -> Result<(), AllocError> {
        if line == "end" {
            self.open = false;
            return Ok(());
        }
        if let Some(last) = self.all.last_mut() {
            last.text.push_str(line)?;
            last.text.push('\n')?;
        }
        Ok(())
    }

    /// The text of this name.
    pub fn named(&self, name: &str) -> Option<&str> {
        for named in &self.all {
            if named.name.as_str() == name {
                return Some(named.text.as_str());
            }
        }
        None
    }
}
