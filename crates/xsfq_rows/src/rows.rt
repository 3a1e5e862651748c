//! The text of cases: named texts, and cases one after another.

use crate::cases::Case;
use crate::lines::{add_line, add_text, parted};
use anyhow::{Context, Result, bail};
use std::alloc::Global;
use std::collections::BTreeMap;

/// What the lines read last belong to.
#[derive(Drop)]
enum Begun {
    /// Nothing.
    Nothing,
    /// A text of this name.
    Text(String),
    /// The last case.
    Case,
}

/// What is read so far.
#[derive(Drop)]
struct Rows {
    alloc: Global,
    texts: BTreeMap<String, Vec<u8>>,
    cases: Vec<Case>,
    begun: Begun,
}

impl Rows {
    fn new(alloc: Global) -> Self {
        Rows {
            alloc,
            texts: BTreeMap::new(alloc),
            cases: Vec::new(alloc),
            begun: Begun::Nothing,
        }
    }

    /// Begins a text.
    fn begin_text(&mut self, name: &str) -> Result<()> {
        let key = String::from_str(self.alloc, name)?;
        self.texts.insert(key, Vec::new(self.alloc))?;
        self.begun = Begun::Text(String::from_str(self.alloc, name)?);
        Ok(())
    }

    /// Begins a case.
    fn begin_case(&mut self, name: &str) -> Result<()> {
        let name = String::from_str(self.alloc, name)?;
        self.cases.push(Case::named(self.alloc, name))?;
        self.begun = Begun::Case;
        Ok(())
    }

    /// Adds a named text to the input of the last case.
    fn add_named(&mut self, name: &str) -> Result<()> {
        let text = self.texts.get(name).context("unknown text")?;
        let case = self.cases.last_mut().context("no case")?;
        case.input.extend_from_slice(text)?;
        Ok(())
    }

    /// Adds a line to the text or case that is begun.
    fn add_to_begun(&mut self, line: &str) -> Result<()> {
        match &self.begun {
            Begun::Nothing => bail!("a case begins with `case`, a text with `text`"),
            Begun::Text(name) => {
                let (word, rest) = parted(line);
                let manner = word.strip_prefix("in").context("a text has lines of `in`")?;
                let text = self.texts.get_mut(name.as_str()).context("unknown text")?;
                add_text(self.alloc, manner, rest, text)
            }
            Begun::Case => {
                let case = self.cases.last_mut().context("no case")?;
                add_line(self.alloc, line, case)
            }
        }
    }

    /// Adds a line.
    fn add(&mut self, line: &str) -> Result<()> {
        if line.is_empty() || line.starts_with('#') {
            return Ok(());
        }
        match parted(line) {
            ("text", name) => self.begin_text(name),
            ("case", name) => self.begin_case(name),
            ("use", name) => self.add_named(name),
            _ => self.add_to_begun(line),
        }
    }
}

/// The cases of a text. The error tells the first line that is none of a case.
pub(crate) fn cases_of(alloc: Global, text: &str) -> Result<Vec<Case>> {
    let mut rows = Rows::new(alloc);
    for (place, line) in text.lines().enumerate() {
        rows.add(line)
            .context(format_args!("line {}", place.wrapping_add(1)))?;
    }
    Ok(rows.cases)
}
