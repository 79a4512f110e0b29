//! The files to which the tree goes as a picture.
use crate::answering::{put_world_graph, put_world_svg};
use crate::program::excuse;
use crate::words::Asked;
use lab_text::Text;
use memory::Memory;
use program_ends::Outcome;
use route_core::World;
use std::alloc::AllocError;
use std::fs;
use std::io::Write;
use std::rt::Files;

/// Writes the tree into the files that are asked for, each in the place of what is there. `Err` has the outcome that it
/// comes to where that can't be done.
pub(crate) fn write_pictures<R: Files + Eprint + AllocGlobal>(
    rt: &R,
    asked: &Asked<'_>,
    world: &mut World,
    memory: &mut Memory,
) -> Result<(), Outcome> {
    if let Some(file) = asked.graph {
        let mut text = Text::new(rt.alloc());
        let made = put_world_graph(rt.alloc(), world, &mut text, memory);
        write_picture(rt, file, made, &text)?;
    }
    if let Some(file) = asked.svg {
        let mut text = Text::new(rt.alloc());
        let made = put_world_svg(rt.alloc(), world, &mut text, memory);
        write_picture(rt, file, made, &text)?;
    }
    Ok(())
}

/// Writes a text, if there was memory to make it, into a file.
fn write_picture<R: Files + Eprint>(
    rt: &R,
    file: &str,
    made: Result<(), AllocError>,
    text: &Text,
) -> Result<(), Outcome> {
    if made.is_err() {
        return Err(Outcome::NoMemory);
    }
    let written = match fs::create(rt, file) {
        Ok(mut picture) => picture.write_all(text.as_bytes()),
        Err(error) => Err(error),
    };
    written.map_err(|error| {
        excuse(rt, file, Some(error.kind()));
        Outcome::WriteFault
    })
}
