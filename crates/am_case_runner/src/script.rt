//! A file of cases, item by item.

use crate::command::{Command, output, read_command};
use crate::inserts::{Named, filled, text_named};
use crate::lines::{Item, items, split_at_first, utf8};
use crate::problem::{Problem, Tally};
use crate::program::Program;
use crate::stage::Stage;
use crate::table::{Ground, Table};
use std::alloc::Global;
use std::fs;
use std::rt::Files;

/// What a file of cases has defined so far.
#[derive(Drop)]
pub struct Definitions {
    pub texts: Vec<Named>,
    pub files: Vec<Named>,
    /// Files of which each case of a table makes its own, with its text in place of `%`.
    pub templates: Vec<Named>,
}

/// What has been read of a file of cases so far.
#[derive(Drop)]
struct Script<'a, 'r, R, P> {
    host: &'r R,
    program: &'r P,
    known: Definitions,
    /// What has not been run yet, since later lines may say more about it: a command or a table.
    command: Option<Command>,
    table: Option<(usize, Table<'a>)>,
}

/// Runs the cases of a file, and counts them.
pub fn run_file<R: Files + AllocGlobal, P: Program>(
    host: &R,
    program: &P,
    file: &[u8],
    tally: &mut Tally,
) -> Result<(), Problem> {
    let alloc = host.alloc();
    let mut script = Script {
        host,
        program,
        known: Definitions::none(alloc),
        command: None,
        table: None,
    };
    for item in &items(alloc, file)? {
        if let Err(problem) = script.take(item, tally) {
            tally.note(item.head.number, problem)?;
        }
    }
    script.run_pending(tally)?;
    if tally.cases == 0 {
        return Err(Problem::said(alloc, "no case"));
    }
    Ok(())
}

impl Definitions {
    fn none(alloc: Global) -> Definitions {
        Definitions {
            texts: Vec::new(alloc),
            files: Vec::new(alloc),
            templates: Vec::new(alloc),
        }
    }

    /// Takes the items of a file, all of which must be definitions.
    fn take_all(&mut self, alloc: Global, file: &[u8]) -> Result<(), Problem> {
        for item in &items(alloc, file)? {
            if !self.take(alloc, item)? {
                return Err(Problem::about(alloc, "no text and no file", item.head.text));
            }
        }
        Ok(())
    }

    /// Takes the text or the file that an item defines. Returns `false` if it defines neither.
    fn take(&mut self, alloc: Global, item: &Item<'_>) -> Result<bool, Problem> {
        let texts = self.texts.as_slice();
        if let Some(rest) = item.head.text.strip_prefix(b"text ") {
            let text = defined(alloc, texts, item, rest)?;
            if text_named(texts, text.name.as_slice()).is_some() {
                return Err(Problem::about(alloc, "a text of this name is there already", rest));
            }
            self.texts.push(text)?;
        } else if let Some(rest) = item.head.text.strip_prefix(b"file ") {
            let file = defined(alloc, texts, item, rest)?;
            drop_named(&mut self.templates, file.name.as_slice());
            self.files.push(file)?;
        } else if let Some(rest) = item.head.text.strip_prefix(b"template ") {
            let template = defined(alloc, texts, item, rest)?;
            drop_named(&mut self.templates, template.name.as_slice());
            self.templates.push(template)?;
        } else {
            return Ok(false);
        }
        Ok(true)
    }
}

/// Drops a file, if one has this name.
fn drop_named(files: &mut Vec<Named>, name: &[u8]) {
    if let Some(at) = files.iter().position(|file| file.name.as_slice() == name)
        && at < files.len()
    {
        let _ = files.remove(at);
    }
}

/// The text that an item names: behind ` = `, or in the lines below.
fn defined(alloc: Global, texts: &[Named], item: &Item<'_>, rest: &[u8]) -> Result<Named, Problem> {
    let (name, text) = match split_at_first(rest, b" = ") {
        Some((name, raw)) if item.body.is_empty() => (name, filled(alloc, texts, raw)?),
        None => (rest, output(alloc, texts, item.body.as_slice())?),
        _ => return Err(Problem::about(alloc, "a text of one line has no more", rest)),
    };
    let name = Vec::from_slice(alloc, name)?;
    Ok(Named { name, text })
}

impl<'a, 'r, R: Files + AllocGlobal, P: Program> Script<'a, 'r, R, P> {
    fn take(&mut self, item: &Item<'a>, tally: &mut Tally) -> Result<(), Problem> {
        if self.take_more(item)? {
            return Ok(());
        }
        self.run_pending(tally)?;
        self.begin(item)
    }

    /// Takes an item that says more about the command or the table before it. Returns `false` for
    /// any other item.
    fn take_more(&mut self, item: &Item<'a>) -> Result<bool, Problem> {
        let alloc = self.host.alloc();
        let texts = self.known.texts.as_slice();
        if let Some(command) = &mut self.command {
            return command.take(alloc, texts, item);
        }
        match &mut self.table {
            Some((_, table)) => table.take(alloc, texts, item),
            None => Ok(false),
        }
    }

    fn begin(&mut self, item: &Item<'a>) -> Result<(), Problem> {
        let alloc = self.host.alloc();
        let head = item.head.text;
        if head.starts_with(b"$ ") {
            self.command = Some(read_command(alloc, self.known.texts.as_slice(), item)?);
            return Ok(());
        }
        if self.known.take(alloc, item)? {
            return Ok(());
        }
        if let Some(name) = head.strip_prefix(b"use ") {
            return self.use_texts(name);
        }
        let mut table = Table::new(alloc);
        if !table.take(alloc, self.known.texts.as_slice(), item)? {
            return Err(Problem::about(alloc, "no word of a file of cases", head));
        }
        self.table = Some((item.head.number, table));
        Ok(())
    }

    fn use_texts(&mut self, name: &[u8]) -> Result<(), Problem> {
        let alloc = self.host.alloc();
        let file = fs::read(self.host, utf8(alloc, name)?);
        let file = file.map_err(|error| Problem::of(alloc, &error, "no such file of texts"))?;
        self.known.take_all(alloc, file.as_slice())
    }

    /// Runs what has not been run yet.
    fn run_pending(&mut self, tally: &mut Tally) -> Result<(), Problem> {
        if let Some(mut command) = self.command.take() {
            if tally.is_asked_for(command.line) {
                let stage = Stage {
                    host: self.host,
                    program: self.program,
                    made: &[],
                    files: self.known.files.as_slice(),
                    clock_fails: command.clock_fails,
                };
                let outcome = stage.check(&mut command);
                tally.count(command.line, outcome)?;
            }
        }
        if let Some((line, table)) = self.table.take() {
            let ground = Ground {
                host: self.host,
                program: self.program,
                known: &self.known,
            };
            if let Err(problem) = ground.run_table(&table, tally) {
                tally.note(line, problem)?;
            }
        }
        Ok(())
    }
}
