//! The lines of a script.

/// What a line asks for.
#[derive(Clone, Copy)]
pub enum Command<'a> {
    /// `#..`: what the script is about.
    Note,
    /// `!seal TICKET OPERATIONS`: the operations are kept as the transaction of this ticket.
    Seal(u64, &'a str),
    /// `!apply TICKET` or `!apply TICKET OTHER ..`: the transaction is applied once, behind those of the other tickets.
    Apply(u64, &'a str),
    /// `!passed TICKET WRITE`: the write of a session is passed on with this ticket.
    Passed(u64, &'a str),
    /// `!find TABLE VALUE,..`: the row at a key.
    Find(&'a str, &'a str),
    /// `!schema`: the definitions.
    Schema,
    /// `!snapshot TABLE ..`: rows of these tables.
    Snapshot(&'a str),
    /// `!reach TABLE VALUE,.. in TREE`: the instance that the row at a key is in. The tree has its tables with `; `
    /// between, the root first, each with its WHERE where it has one.
    Reach(&'a str, &'a str),
    /// `!changes N WANTS in TREES`, or `N/M` in place of `N`: what changed since the position N, where no call to come
    /// asks since one before M. Wants are `TABLE VALUE,..` with `; ` between; there may be none. Trees have ` / `
    /// between.
    Changes(u64, u64, &'a str, &'a str),
    /// `!tells N`: whether it tells what changed since the position N.
    Tells(u64),
    /// `!put TEXT`: the bytes are written into the second slot behind its first byte, and synced.
    Put(&'a str),
    /// `!get`: the bytes of the second slot behind its first one.
    Get,
    /// `!again`: the files are closed, and opened again.
    Again,
    /// `!open PATH`: another database is opened.
    Open(&'a str),
    /// A definition or writes, as the console spells them.
    Console(&'a str),
}

impl<'a> Command<'a> {
    /// What the line asks for, none where it isn't understood.
    pub fn parse(line: &'a [u8]) -> Option<Command<'a>> {
        let text = str::from_utf8(line).ok()?;
        if text.starts_with("#") {
            return Some(Command::Note);
        }
        match text.strip_prefix("!") {
            None => Some(Command::Console(text)),
            Some(rest) => parse_call(rest),
        }
    }
}

fn parse_call(text: &str) -> Option<Command<'_>> {
    let (word, rest) = first_word(text);
    match word {
        "seal" | "apply" | "passed" => parse_ticketed(word, rest),
        "find" => {
            let (table, key) = first_word(rest);
            Some(Command::Find(table, key))
        }
        "reach" => {
            let (table, rest) = first_word(rest);
            Some(Command::Reach(table, rest))
        }
        "changes" => parse_changes(rest),
        "tells" => parse_tells(rest),
        "schema" => Some(Command::Schema),
        "snapshot" => Some(Command::Snapshot(rest)),
        "put" => Some(Command::Put(rest)),
        "get" => Some(Command::Get),
        "again" => Some(Command::Again),
        "open" => Some(Command::Open(rest)),
        _ => None,
    }
}

// A call with a ticket before the text.
fn parse_ticketed<'a>(word: &str, text: &'a str) -> Option<Command<'a>> {
    let (ticket, rest) = first_word(text);
    let ticket = ticket.parse::<u64>().ok()?;
    match word {
        "seal" => Some(Command::Seal(ticket, rest)),
        "apply" => Some(Command::Apply(ticket, rest)),
        _ => Some(Command::Passed(ticket, rest)),
    }
}

fn parse_changes(text: &str) -> Option<Command<'_>> {
    let (from, rest) = first_word(text);
    let (since, least) = from.split_once('/').unwrap_or((from, "0"));
    let since = since.parse::<u64>().ok()?;
    let least = least.parse::<u64>().ok()?;
    let (wants, trees) = match rest.strip_prefix("in ") {
        Some(trees) => ("", trees),
        None => rest.split_once(" in ")?,
    };
    Some(Command::Changes(since, least, wants, trees))
}

fn parse_tells(text: &str) -> Option<Command<'_>> {
    let since = text.parse::<u64>().ok()?;
    Some(Command::Tells(since))
}

// The text up to its first blank, and what stands behind that.
fn first_word(text: &str) -> (&str, &str) {
    text.split_once(' ').unwrap_or((text, ""))
}
