//! The names of examples: a script is a file `NAME.speck`, and `NAME.COMMAND.STATUS` beside it is what `speck COMMAND`
//! prints of it, with that status.

use std::alloc::Global;
use std::rt::Files;
use std::{fs, io};

/// What a file stands for.
#[derive(Clone, Copy)]
pub enum Role<'a> {
    /// The script of this name.
    Script {
        name: &'a str,
    },
    /// What is wanted of a run.
    Answer {
        name: &'a str,
        command: &'a str,
        status: u8,
    },
    /// Nothing that an example has.
    Other,
}

/// What the file of this path stands for.
pub fn role_of(path: &str) -> Role<'_> {
    let Some((front, last)) = path.rsplit_once('.') else {
        return Role::Other;
    };
    if last == "speck" {
        return Role::Script { name: front };
    }
    let Some((name, command)) = front.rsplit_once('.') else {
        return Role::Other;
    };
    match last.parse::<u8>() {
        Ok(status) => Role::Answer {
            name,
            command,
            status,
        },
        Err(_) => Role::Other,
    }
}

/// Whether the file of this path is the script of this name.
pub fn is_script(path: &str, script: &str) -> bool {
    match role_of(path) {
        Role::Script { name } => name == script,
        _ => false,
    }
}

/// Whether the file of this path is wanted of a run of the script of this name.
pub fn answers(path: &str, script: &str) -> bool {
    match role_of(path) {
        Role::Answer { name, .. } => name == script,
        _ => false,
    }
}

/// The paths of all files in and below the folder that the program runs in, in order.
pub fn file_paths<R: Files + AllocGlobal + Clone + Drop>(rt: &R) -> io::Result<Vec<String>> {
    let alloc = rt.alloc();
    let mut files = Vec::new(alloc);
    let mut folders = Vec::new(alloc);
    folders.push(String::from_str(alloc, ".")?)?;
    for _ in 0..u64::MAX {
        let Some(folder) = folders.pop() else {
            break;
        };
        for entry in fs::read_dir(rt, &folder)? {
            let entry = entry?;
            let path = String::from_str(alloc, entry.path().as_str())?;
            if entry.file_type()?.is_dir() {
                folders.push(path)?;
            } else {
                files.push(path)?;
            }
        }
    }
    files.sort()?;
    Ok(files)
}
