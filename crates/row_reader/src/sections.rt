//! The groups of a file, and their sections.

use crate::fault::Fault;
use std::alloc::Global;

/// A section: the words of its head, and the lines after it, each with its end.
#[derive(Drop)]
pub struct Section {
    pub head: String,
    pub body: String,
}

/// A group: what its rows show, and its sections. That of the sections before the first group shows nothing.
#[derive(Drop)]
pub struct Group {
    pub name: String,
    pub sections: Vec<Section>,
}

fn new_group(alloc: Global, name: &str) -> Result<Group, Fault> {
    Ok(Group {
        name: String::from_str(alloc, name)?,
        sections: Vec::new(alloc),
    })
}

// Adds a line to the last section of a group.
fn add_line(alloc: Global, group: &mut Group, line: &str) -> Result<(), Fault> {
    let Some(section) = group.sections.last_mut() else {
        return Err(Fault::Line(String::from_str(alloc, line)?));
    };
    section.body.push_str(line)?;
    section.body.push('\n')?;
    Ok(())
}

/// The groups of a file of this text, the first of which is that before all others.
pub fn groups_of(alloc: Global, text: &str) -> Result<Vec<Group>, Fault> {
    let mut groups = Vec::new(alloc);
    let mut last = new_group(alloc, "")?;
    for line in text.lines() {
        if line.is_empty() || line == "#" || line.starts_with("# ") {
            continue;
        }
        if let Some(name) = line.strip_prefix("== ") {
            let next = new_group(alloc, name)?;
            let whole = std::mem::replace(&mut last, next);
            groups.push(whole)?;
        } else if let Some(head) = line.strip_prefix("-- ") {
            let head = String::from_str(alloc, head)?;
            last.sections.push(Section {
                head,
                body: String::new(alloc),
            })?;
        } else {
            add_line(alloc, &mut last, line)?;
        }
    }
    groups.push(last)?;
    Ok(groups)
}
