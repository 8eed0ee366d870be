//! What a line that begins with `!` plans.

use backing_gate::{CallKind, Side, When};
use memory_disk::Pick;
use outside::Slot;

/// What a line that begins with `!` plans. Calls are counted from 1 in a script, and from 0 here.
#[derive(Clone, Copy)]
pub enum Plan<'a> {
    /// `fail KIND N before` or `fail KIND N after`: the call of this kind fails before its effect or after it.
    Fail(CallKind, u64, When),
    /// `refuse KIND N`: memory is wanting in the call of this kind.
    Refuse(CallKind, u64),
    /// `foreign N WRITES` or `foreign N behind WRITES`: a transaction of others comes in this call of the bank, of all
    /// kinds together, before the call's own step or behind it.
    Foreign(u64, Side, &'a str),
    /// `before TABLE` or `before WRITES`: a definition or a transaction of others stands in the history before the run.
    Before(&'a str),
    /// `pieces N`: the source gives and the sink takes so many bytes at once. With 0 the sink takes none.
    Pieces(usize),
    /// `source N`: this call of the source fails.
    Source(u64),
    /// `sink N`: this call of the sink fails.
    Sink(u64),
    /// `settings TEXT`: a line of the settings.
    Settings(&'a str),
    /// `words TEXT`: the words behind the program's name, in place of `run`.
    Words(&'a str),
    /// `joined`: tables that foreign keys join stand in the history before the run, as `joined` defines them.
    Joined,
    /// `slots`: the first bytes of the journal's slots are told at the end.
    Slots,
    /// `restart`: the input behind this line is that of a new run of the program, over the same site.
    Restart,
    /// `crash MOMENT PICK`: the run ends at this moment, which is counted from its beginning: each call of the bank
    /// that leaves entries is one, and each write, cut and sync of the journal's disk. The slots are left as picked of
    /// what a crash may leave then.
    Crash(u64, Pick),
    /// `slot N BYTES`: the slot has these bytes as the run begins.
    Slot(Slot, &'a str),
    /// `damage N PLACE BYTES`: the slot has these bytes from the place on as the run begins.
    Damage(Slot, usize, &'a str),
    /// `shorten N LENGTH`: the slot is cut to so many bytes as the run begins.
    Shorten(Slot, usize),
    /// `note TEXT`: what the script is about. It plans nothing.
    Note,
}

impl<'a> Plan<'a> {
    /// What the text behind `!` plans, none where it isn't understood.
    pub fn parse(text: &'a str) -> Option<Plan<'a>> {
        let (word, rest) = first_word(text);
        match word {
            "fail" => parse_fail(rest),
            "refuse" => parse_refuse(rest),
            "foreign" => parse_foreign(rest),
            "before" => Some(Plan::Before(rest)),
            "pieces" => parse_pieces(rest),
            "source" | "sink" => parse_stream(word, rest),
            "settings" => Some(Plan::Settings(rest)),
            "words" => Some(Plan::Words(rest)),
            "joined" => Some(Plan::Joined),
            "slots" => Some(Plan::Slots),
            "restart" => Some(Plan::Restart),
            "crash" => parse_crash(rest),
            "slot" | "damage" | "shorten" => parse_change(word, rest),
            "note" => Some(Plan::Note),
            _ => None,
        }
    }
}

// The text up to its first blank, and what stands behind that.
fn first_word(text: &str) -> (&str, &str) {
    text.split_once(' ').unwrap_or((text, ""))
}

fn parse_fail(text: &str) -> Option<Plan<'_>> {
    let (kind, rest) = first_word(text);
    let (number, when) = first_word(rest);
    let kind = parse_kind(kind)?;
    let call = parse_call(number)?;
    let when = parse_when(when)?;
    Some(Plan::Fail(kind, call, when))
}

fn parse_refuse(text: &str) -> Option<Plan<'_>> {
    let (kind, number) = first_word(text);
    let kind = parse_kind(kind)?;
    let call = parse_call(number)?;
    Some(Plan::Refuse(kind, call))
}

fn parse_pieces(text: &str) -> Option<Plan<'_>> {
    let size = text.parse::<usize>().ok()?;
    Some(Plan::Pieces(size))
}

// A call of the source or of the sink that fails.
fn parse_stream<'a>(word: &str, text: &'a str) -> Option<Plan<'a>> {
    let call = parse_call(text)?;
    match word {
        "source" => Some(Plan::Source(call)),
        _ => Some(Plan::Sink(call)),
    }
}

fn parse_foreign(text: &str) -> Option<Plan<'_>> {
    let (number, rest) = first_word(text);
    let call = parse_call(number)?;
    match first_word(rest) {
        ("behind", writes) => Some(Plan::Foreign(call, Side::Behind, writes)),
        _ => Some(Plan::Foreign(call, Side::Before, rest)),
    }
}

fn parse_crash(text: &str) -> Option<Plan<'_>> {
    let (moment, pick) = first_word(text);
    let moment = moment.parse::<u64>().ok()?;
    let pick = parse_pick(pick)?;
    Some(Plan::Crash(moment, pick))
}

// What a crash leaves in ranges that aren't certain; a number begins a generator.
fn parse_pick(word: &str) -> Option<Pick> {
    match word {
        "old" => Some(Pick::Old),
        "new" => Some(Pick::New),
        "ones" => Some(Pick::Ones),
        _ => {
            let begin = word.parse::<u64>().ok()?;
            Some(Pick::Drawn(begin))
        }
    }
}

// The slot, and what stands behind its number.
fn parse_slot(text: &str) -> Option<(Slot, &str)> {
    match first_word(text) {
        ("0", rest) => Some((Slot::First, rest)),
        ("1", rest) => Some((Slot::Second, rest)),
        _ => None,
    }
}

// A change of a slot.
fn parse_change<'a>(word: &str, text: &'a str) -> Option<Plan<'a>> {
    let (slot, rest) = parse_slot(text)?;
    match word {
        "slot" => Some(Plan::Slot(slot, rest)),
        "damage" => parse_damage(slot, rest),
        _ => parse_shorten(slot, rest),
    }
}

fn parse_damage(slot: Slot, text: &str) -> Option<Plan<'_>> {
    let (place, bytes) = first_word(text);
    let place = place.parse::<usize>().ok()?;
    Some(Plan::Damage(slot, place, bytes))
}

fn parse_shorten(slot: Slot, text: &str) -> Option<Plan<'_>> {
    let length = text.parse::<usize>().ok()?;
    Some(Plan::Shorten(slot, length))
}

fn parse_kind(word: &str) -> Option<CallKind> {
    match word {
        "schema" => Some(CallKind::Schema),
        "define" => Some(CallKind::Define),
        "apply_once" => Some(CallKind::ApplyOnce),
        "recorded" => Some(CallKind::Recorded),
        "find" => Some(CallKind::Find),
        "foreign" => Some(CallKind::Foreign),
        "passed" => Some(CallKind::Passed),
        "snapshot" => Some(CallKind::Snapshot),
        "reach" => Some(CallKind::Reach),
        "changes" => Some(CallKind::Changes),
        "read" => Some(CallKind::ReadAt),
        "write" => Some(CallKind::WriteAt),
        "sync" => Some(CallKind::Sync),
        _ => None,
    }
}

fn parse_when(word: &str) -> Option<When> {
    match word {
        "before" => Some(When::Before),
        "after" => Some(When::After),
        _ => None,
    }
}

// The number of a call, from 0; the text has it from 1.
fn parse_call(text: &str) -> Option<u64> {
    text.parse::<u64>().ok()?.checked_sub(1)
}
