//! The rows of a file.

use crate::fault::Fault;
use crate::orders::orders_of;
use crate::sections::{Group, Section, groups_of};
use crate::tables::changed;
use crate::texts::{at, bytes_of, lines_of, number, replaced};
use std::alloc::Global;

/// How bytes are moved: the most of a read and of a write, the first of each that fails, or 0, and the room of the sink.
#[derive(Clone, Copy, Debug)]
pub struct Ends {
    pub read_most: u32,
    pub write_most: u32,
    pub read_fails: u32,
    pub write_fails: u32,
    pub room: u32,
}

/// A row: what it shows, the words and the script of a run, and the status and the text that are due, each time that it is run.
#[derive(Drop)]
pub struct Row {
    pub name: String,
    pub words: Vec<String>,
    pub script: Vec<u8>,
    pub ends: Ends,
    pub status: u32,
    pub text: String,
    pub times: u32,
}

// What the sections have set.
#[derive(Drop)]
struct Settings {
    by: String,
    machine: String,
    calls: String,
    first: String,
    start: String,
    tables: String,
    ends: Ends,
    status: u32,
    front: u32,
    times: u32,
}

impl Settings {
    fn new(alloc: Global) -> Result<Settings, Fault> {
        Ok(Settings {
            by: String::from_str(alloc, "replay")?,
            machine: String::new(alloc),
            calls: String::new(alloc),
            first: String::new(alloc),
            start: String::new(alloc),
            tables: String::new(alloc),
            ends: Ends {
                read_most: 4096,
                write_most: 4096,
                read_fails: 0,
                write_fails: 0,
                room: 1_048_576,
            },
            status: 0,
            front: u32::MAX,
            times: 1,
        })
    }

    // Sets the ends by words such as `read=16`.
    fn set_ends(&mut self, alloc: Global, words: &str) -> Result<(), Fault> {
        for word in words.split_whitespace() {
            let Some((name, value)) = word.split_once('=') else {
                return at(alloc, word);
            };
            let value = number(alloc, value)?;
            match name {
                "read" => self.ends.read_most = value,
                "write" => self.ends.write_most = value,
                "read_fails" => self.ends.read_fails = value,
                "write_fails" => self.ends.write_fails = value,
                "room" => self.ends.room = value,
                _ => return at(alloc, word),
            }
        }
        Ok(())
    }

    // Sets what a section sets; false where it sets nothing.
    fn set(&mut self, alloc: Global, word: &str, rest: &str, body: String) -> Result<bool, Fault> {
        match word {
            "by" => self.by = String::from_str(alloc, rest)?,
            "machine" => self.machine = body,
            "calls" => self.calls = body,
            "script" => {
                self.machine = String::new(alloc);
                self.calls = body;
            }
            "first" => self.first = body,
            "start" => {
                self.tables = changed(alloc, &body, "")?;
                self.start = body;
            }
            "tables" => self.tables = changed(alloc, &self.start, &body)?,
            "ends" => self.set_ends(alloc, rest)?,
            "status" => self.status = number(alloc, rest)?,
            "front" => self.front = number(alloc, rest)?,
            "times" => self.times = number(alloc, rest)?,
            _ => return Ok(false),
        }
        Ok(true)
    }

    // The text that is due where these replies are, before tables or alone.
    fn text(&self, alloc: Global, replies: &str, is_whole: bool) -> Result<String, Fault> {
        let text = if is_whole {
            String::from_str(alloc, replies)?
        } else {
            format!(in alloc; "{}{replies}{}", self.first, self.tables)?
        };
        let front = self.front as usize;
        match text.get(0..front.min(text.len())) {
            Some(front) => Ok(String::from_str(alloc, front)?),
            None => at(alloc, replies),
        }
    }

    // Adds a row for each command, of a script that ends so.
    fn add_rows(
        &self,
        alloc: Global,
        rows: &mut Vec<Row>,
        group: &str,
        order: &str,
        text: &str,
    ) -> Result<(), Fault> {
        let script = if order.is_empty() {
            format!(in alloc; "{}{}", self.machine, self.calls)?
        } else {
            format!(in alloc; "{}{}order\n{order}\n", self.machine, self.calls)?
        };
        for command in self.by.split(',') {
            let mut words = Vec::new(alloc);
            for word in command.split_whitespace() {
                let word = if word == "\"\"" { "" } else { word };
                words.push(String::from_str(alloc, word)?)?;
            }
            let command = command.trim();
            let name = if order.is_empty() {
                format!(in alloc; "{group}, by {command}")?
            } else {
                format!(in alloc; "{group}, by {command}, order {order}")?
            };
            rows.push(Row {
                name,
                words,
                script: bytes_of(alloc, &script)?,
                ends: self.ends,
                status: self.status,
                text: String::from_str(alloc, text)?,
                times: self.times,
            })?;
        }
        Ok(())
    }

    // Takes a section: it sets something, or adds rows.
    fn take(
        &mut self,
        alloc: Global,
        rows: &mut Vec<Row>,
        group: &str,
        head: &str,
        body: &str,
    ) -> Result<(), Fault> {
        let (word, rest) = head.split_once(' ').unwrap_or((head, ""));
        let body = lines_of(alloc, body)?;
        match word {
            "case" | "whole" => {
                let text = self.text(alloc, &body, word == "whole")?;
                self.add_rows(alloc, rows, group, "", &text)
            }
            "order" => {
                let text = self.text(alloc, &body, false)?;
                for order in &orders_of(alloc, rest)? {
                    self.add_rows(alloc, rows, group, order, &text)?;
                }
                Ok(())
            }
            _ => {
                if self.set(alloc, word, rest, body)? {
                    Ok(())
                } else {
                    at(alloc, head)
                }
            }
        }
    }
}

// The text in which these values stand for these names.
fn filled(alloc: Global, text: &str, names: &str, values: &str) -> Result<String, Fault> {
    let mut filled = String::from_str(alloc, text)?;
    let mut values = values.split(" | ");
    for name in names.split(" | ") {
        match values.next() {
            Some(value) => filled = replaced(alloc, &filled, name, value)?,
            None => return at(alloc, names),
        }
    }
    Ok(filled)
}

// Adds the rows of a group, where these values stand for these names.
fn add_group(
    alloc: Global,
    rows: &mut Vec<Row>,
    before: &[&Vec<Section>],
    group: &Group,
    names: &str,
    values: &str,
) -> Result<(), Fault> {
    let mut settings = Settings::new(alloc)?;
    let name = if values.is_empty() {
        String::from_str(alloc, &group.name)?
    } else {
        format!(in alloc; "{} ({values})", group.name)?
    };
    for sections in before {
        for section in sections.iter() {
            settings.take(alloc, rows, &name, &section.head, &section.body)?;
        }
    }
    for section in &group.sections {
        if !section.head.starts_with("each ") {
            let head = filled(alloc, &section.head, names, values)?;
            let body = filled(alloc, &section.body, names, values)?;
            settings.take(alloc, rows, &name, &head, &body)?;
        }
    }
    Ok(())
}

/// The rows of a file of this text, where what stands in the other text holds for all its groups, before what it says itself.
pub fn rows_of(alloc: Global, shared: &str, text: &str) -> Result<Vec<Row>, Fault> {
    let shared = groups_of(alloc, shared)?;
    let groups = groups_of(alloc, text)?;
    let mut rows = Vec::new(alloc);
    let (Some(shared), Some((first, groups))) = (shared.first(), groups.split_first()) else {
        return Ok(rows);
    };
    let before = [&shared.sections, &first.sections];
    for group in groups {
        let each = match group.sections.first() {
            Some(section) => section
                .head
                .strip_prefix("each ")
                .map(|names| (names, &section.body)),
            None => None,
        };
        match each {
            Some((names, values)) => for values in values.lines() {
                add_group(alloc, &mut rows, &before, group, names, values)?;
            },
            None => add_group(alloc, &mut rows, &before, group, "", "")?,
        }
    }
    Ok(rows)
}
