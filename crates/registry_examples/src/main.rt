//! Runs the worked examples of `data/` over each keeper, and compares every byte that the registry
//! answers with what the example says. The files to read are the program's arguments. Behind
//! `--patient`, what wants memory is asked once more, and the program ends well whatever it prints: so
//! a run that lacked memory of its own is told from one in which the registry answered wrongly.
#![tactic(auto)]

mod commands;
mod difference;
mod documents;
mod patience;
mod playing;
mod rows;
mod serving;
mod texts;

use anyhow::Result;
use example_files::{Book, Kind, Reader, Section};
use patience::Patience;
use playing::{Play, Told, differs_over_maps, differs_over_pack, differs_over_tables};
use serving::Way;
use std::process::ExitCode;
use std::{env, fs};

/// The word that asks for patience.
const PATIENT: &str = "--patient";

/// The examples of the files, in order.
fn read_all(rt: &HostRuntime) -> Result<Book> {
    let mut reader = Reader::new(rt.alloc());
    let mut words = env::args(rt)?;
    drop(words.next());
    for file in words {
        read_file(rt, &mut reader, file.as_str())?;
    }
    Ok(reader.into_book())
}

fn read_file(rt: &HostRuntime, reader: &mut Reader, file: &str) -> Result<()> {
    if file == PATIENT {
        return Ok(());
    }
    let text = fs::read_to_string(rt, file)?;
    reader.read(file, text.as_str())
}

fn asked_patience(rt: &HostRuntime) -> Result<Patience> {
    for word in env::args(rt)? {
        if word.as_str() == PATIENT {
            return Ok(Patience::Once);
        }
    }
    Ok(Patience::None)
}

/// Prints `ok` for each example that is answered as it says over each keeper, or where it first
/// differs; whether none did.
fn play_all(rt: &HostRuntime, book: &Book, patience: Patience) -> Result<bool> {
    let mut are_ok = true;
    let play = Play {
        alloc: rt.alloc(),
        book,
        patience,
        way: Way::Whole,
    };
    for section in book.sections.iter() {
        if section.kind == Kind::Example {
            are_ok &= play_one(rt, play, section)?;
        }
    }
    Ok(are_ok)
}

/// Plays an example over each keeper: with patience, whose plays are played again and again, over maps and
/// tables alone.
fn play_one(rt: &HostRuntime, play: Play, example: &Section) -> Result<bool> {
    let mut told = Told::new(rt.alloc());
    let over_maps = differs_over_maps(play, example, &mut told)?;
    let over_tables = differs_over_tables(play, example, &mut told)?;
    let over_pack = match play.patience {
        Patience::None => differs_over_pack(play, example, &mut told)?,
        Patience::Once => None,
    };
    let is_ok = over_maps.is_none() && over_tables.is_none() && over_pack.is_none();
    print_difference(rt, example, "maps", &over_maps)?;
    print_difference(rt, example, "tables", &over_tables)?;
    print_difference(rt, example, "pack", &over_pack)?;
    if is_ok {
        let (file, name) = (example.file.as_str(), example.name.as_str());
        println!(rt; "{file}: {name} ok")?;
    }
    Ok(is_ok)
}

fn print_difference(
    rt: &HostRuntime,
    example: &Section,
    keeper: &str,
    difference: &Option<String>,
) -> Result<()> {
    if let Some(difference) = difference {
        let (file, name) = (example.file.as_str(), example.name.as_str());
        println!(rt; "{file}: {name} differs over {keeper}: {difference}")?;
    }
    Ok(())
}

fn main(rt: HostRuntime) -> Result<ExitCode> {
    let book = read_all(&rt)?;
    let patience = asked_patience(&rt)?;
    if play_all(&rt, &book, patience)? || patience == Patience::Once {
        Ok(ExitCode::SUCCESS)
    } else {
        Ok(ExitCode::FAILURE)
    }
}
