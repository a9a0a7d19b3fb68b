use crate::commands::commanded;
use crate::difference::first_difference;
use crate::documents::{fault_in, reading_of};
use crate::patience::Patience;
use crate::rows::differs_in_rows;
use crate::serving::{Answer, Way, served};
use crate::texts::reading_by;
use anyhow::{Context, Result};
use example_files::{Asked, Beginning, Book, Section, Step};
use registry_maps::MapKeeper;
use registry_model::Keeper;
use registry_service::Service;
use registry_store::{OpenFault, Ours, Reclaim, Store};
use sqlite::Alter;
use sqlite_disk::Memory;
use std::alloc::Global;
use std::str;
use store_bytes::Contents;

/// The mark of each pack: none is opened again.
const MARK: [u8; 16] = *b"worked examples.";

/// How examples of a book are played.
#[derive(Clone, Copy)]
pub struct Play<'a> {
    pub alloc: Global,
    pub book: &'a Book,
    pub patience: Patience,
    pub way: Way,
}

/// What the steps of an example were answered when it was played first. However, and over whichever keeper,
/// it is played again, they are answered the same.
#[derive(Drop)]
pub struct Told {
    answers: Vec<Vec<u8>>,
}

impl Told {
    pub fn new(alloc: Global) -> Told {
        Told {
            answers: Vec::new(alloc),
        }
    }

    /// Where the answer of the step at a place of the example is not what was told first. Of a step that is
    /// none of the example's nothing is told.
    fn differs(
        &mut self,
        alloc: Global,
        place: Option<usize>,
        answer: &[u8],
    ) -> Result<Option<String>> {
        let Some(place) = place else {
            return Ok(None);
        };
        if let Some(first) = self.answers.get(place) {
            return Ok(first_difference(alloc, first.as_slice(), answer)?);
        }
        let mut bytes = Vec::new(alloc);
        bytes.extend_from_slice(answer)?;
        self.answers.push(bytes)?;
        Ok(None)
    }
}

/// Where the answers over ordered maps differ from those that the example wants, in any of the ways in
/// which connections are served.
pub fn differs_over_maps(play: Play, example: &Section, told: &mut Told) -> Result<Option<String>> {
    for way in play.patience.ways() {
        let play = Play { way: *way, ..play };
        for beginning in example.beginnings.iter() {
            let mut registry = Service::new(MapKeeper::new(play.alloc));
            let difference = differs(play, &mut registry, beginning, example, told)?;
            if let Some(text) = difference {
                let alloc = play.alloc;
                return Ok(Some(format!(in alloc; "{text} ({way:?})")?));
            }
        }
    }
    Ok(None)
}

/// Where the answers over the tables of a database in memory differ from them, or where the tables hold
/// something else.
pub fn differs_over_tables(
    play: Play,
    example: &Section,
    told: &mut Told,
) -> Result<Option<String>> {
    for beginning in example.beginnings.iter() {
        match differs_in_tables(play, beginning, example, told) {
            Ok(None) => {}
            ended => return ended,
        }
    }
    Ok(None)
}

/// The same behind one beginning.
fn differs_in_tables(
    play: Play,
    beginning: &Beginning,
    example: &Section,
    told: &mut Told,
) -> Result<Option<String>> {
    let made = match Store::memory(play.alloc) {
        Err(OpenFault::Memory) => Store::memory(play.alloc),
        made => made,
    };
    match made {
        Ok(keeper) => differs_over(play, keeper, beginning, example, told),
        Err(_) => Ok(Some(String::from_str(play.alloc, "no store is made")?)),
    }
}

/// Where the answers over a database and a pack in memory differ from them.
pub fn differs_over_pack(play: Play, example: &Section, told: &mut Told) -> Result<Option<String>> {
    for beginning in example.beginnings.iter() {
        match differs_in_pack(play, beginning, example, told) {
            Ok(None) => {}
            ended => return ended,
        }
    }
    Ok(None)
}

/// The same behind one beginning.
fn differs_in_pack(
    play: Play,
    beginning: &Beginning,
    example: &Section,
    told: &mut Told,
) -> Result<Option<String>> {
    let alloc = play.alloc;
    let made = match Store::in_pack(alloc, Memory::new(alloc), MARK) {
        Err(OpenFault::Memory) => Store::in_pack(alloc, Memory::new(alloc), MARK),
        made => made,
    };
    match made {
        Ok(keeper) => differs_over(play, keeper, beginning, example, told),
        Err(_) => Ok(Some(String::from_str(alloc, "no store is made")?)),
    }
}

/// The same over a store, whatever its tables are kept in, and wherever its bytes are. Rows are those of a
/// store whose bytes are in its tables.
fn differs_over<S: Alter + Drop, C: Reclaim>(
    play: Play,
    keeper: Store<S, Ours, C>,
    beginning: &Beginning,
    example: &Section,
    told: &mut Told,
) -> Result<Option<String>> {
    let mut registry = Service::new(keeper);
    let difference = differs(play, &mut registry, beginning, example, told);
    let (mut tables, contents) = registry.into_keeper().into_parts();
    match difference {
        Ok(None) if beginning.noise.is_none() && contents.are_in_tables() => {
            differs_in_rows(play.alloc, &mut tables, example)
        }
        ended => ended,
    }
}

/// Plays what comes before the example and then its steps, up to the first answer that differs.
fn differs<K: Keeper>(
    play: Play,
    registry: &mut Service<K>,
    beginning: &Beginning,
    example: &Section,
    told: &mut Told,
) -> Result<Option<String>> {
    for place in beginning.settings.iter() {
        let difference = plays(play, registry, Some(*place), told)?;
        if difference.is_some() {
            return Ok(difference);
        }
    }
    for (place, step) in example.steps.iter().enumerate() {
        let mut difference = plays(play, registry, beginning.noise, told)?;
        if difference.is_none() {
            difference = step_differs(play, registry, example, step, told, Some(place))?;
        }
        if difference.is_some() {
            return Ok(difference);
        }
    }
    Ok(None)
}

/// Plays the steps of the section at a place of the book, up to the first answer that differs.
fn plays<K: Keeper>(
    play: Play,
    registry: &mut Service<K>,
    place: Option<usize>,
    told: &mut Told,
) -> Result<Option<String>> {
    let Some(place) = place else {
        return Ok(None);
    };
    let Some(section) = play.book.sections.get(place) else {
        return Ok(None);
    };
    for step in section.steps.iter() {
        let difference = step_differs(play, registry, section, step, told, None)?;
        if difference.is_some() {
            return Ok(difference);
        }
    }
    Ok(None)
}

/// Where the answer of a step differs from what is wanted, or from what was told first at its place of the
/// example, where it has one.
fn step_differs<K: Keeper>(
    play: Play,
    registry: &mut Service<K>,
    section: &Section,
    step: &Step,
    told: &mut Told,
    place: Option<usize>,
) -> Result<Option<String>> {
    let (file, line) = (section.file.as_str(), step.line);
    let mut answer = answered(play, registry, &step.asked).context(format_args!("{file}:{line}"))?;
    if play.patience.asks_again(&step.asked, &answer) {
        answer = answered(play, registry, &step.asked)?;
    }
    let alloc = play.alloc;
    let mut difference = compared(alloc, step, &answer)?;
    if difference.is_none() {
        difference = told.differs(alloc, place, answer.bytes.as_slice())?;
    }
    match difference {
        Some(text) => Ok(Some(format!(in alloc; "{file}:{line}, {text}")?)),
        None => Ok(None),
    }
}

/// What is asked, and its answer.
fn answered<K: Keeper>(play: Play, registry: &mut Service<K>, asked: &Asked) -> Result<Answer> {
    let alloc = play.alloc;
    let text = match asked {
        Asked::Requests(requests) => {
            return served(alloc, registry, requests.as_slice(), play.way);
        }
        Asked::Command(command) => commanded(alloc, registry, command.as_str())?,
        Asked::Parsing(bytes) => {
            let text = str::from_utf8(bytes.as_slice())?;
            let (grammar, text) = text.split_once(' ').unwrap_or((text, ""));
            reading_by(alloc, grammar, text)?
        }
        Asked::Fault(manifest) => fault_in(alloc, manifest.as_slice())?,
        Asked::Reading(manifest) => reading_of(alloc, manifest.as_slice())?,
    };
    let end = String::from_str(alloc, "Closed")?;
    let bytes = text.into_bytes();
    Ok(Answer { bytes, end })
}

/// Where an answer differs from the one that the step wants.
fn compared(alloc: Global, step: &Step, answer: &Answer) -> Result<Option<String>> {
    let difference = match &step.status {
        Some(status) => status_differs(alloc, status.as_str(), answer.bytes.as_slice())?,
        None => first_difference(alloc, step.answer.as_slice(), answer.bytes.as_slice())?,
    };
    if difference.is_some() {
        return Ok(difference);
    }
    let wanted = match &step.end {
        Some(end) => end.as_str(),
        None => "Closed",
    };
    let found = answer.end.as_str();
    if wanted == found {
        return Ok(None);
    }
    Ok(Some(format!(in alloc; "which should end {wanted}, and ends {found}")?))
}

/// Where a reply has another status.
fn status_differs(alloc: Global, status: &str, reply: &[u8]) -> Result<Option<String>> {
    let beginning = format!(in alloc; "HTTP/1.1 {status} ")?;
    if reply.starts_with(beginning.as_bytes()) {
        return Ok(None);
    }
    Ok(first_difference(alloc, beginning.as_bytes(), reply)?)
}
