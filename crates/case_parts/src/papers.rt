//! The files that a command is given.
use crate::halt::Halt;
use memory_outside::{Shelf, WatchedShelf};
use std::alloc::Global;
use urna_base::Memory;

/// A file of the cabinet.
#[derive(Drop)]
pub struct Paper {
    pub name: String,
    pub bytes: Vec<u8>,
}

/// For how many bytes that are put a cabinet has room: the files of results and of a rehearsal.
const SHELF_ROOM: u32 = 300_000;

/// A cabinet with these files, of which the calls of these numbers fail.
pub fn cabinet_of(alloc: Global, papers: &[Paper], calls: &[u32]) -> Result<WatchedShelf, Memory> {
    let mut shelf = Shelf::new(alloc, SHELF_ROOM, calls)?;
    for paper in papers {
        shelf.place(&paper.name, &paper.bytes)?;
    }
    Ok(WatchedShelf::new(alloc, shelf))
}

/// The place of the file of that name.
fn find(papers: &[Paper], name: &str) -> Option<usize> {
    papers.iter().position(|paper| paper.name.as_str() == name)
}

/// Takes a file away, if it is there.
pub fn remove(papers: &mut Vec<Paper>, name: &str) {
    if let Some(place) = find(papers, name) {
        if place < papers.len() {
            let _paper = papers.remove(place);
        }
    }
}

/// Places a file, in the stead of one of the same name.
pub fn place(
    alloc: Global,
    papers: &mut Vec<Paper>,
    name: &str,
    bytes: Vec<u8>,
) -> Result<(), Halt> {
    remove(papers, name);
    papers.push(Paper {
        name: String::from_str(alloc, name)?,
        bytes,
    })?;
    Ok(())
}

/// The bytes of the file of that name.
pub fn bytes_of<'a>(papers: &'a [Paper], name: &str) -> Result<&'a [u8], Halt> {
    for paper in papers {
        if paper.name.as_str() == name {
            return Ok(&paper.bytes);
        }
    }
    Err(Halt::Script)
}

/// The text of lines that a script writes in one, with ` / ` between them.
pub fn lines_of(alloc: Global, text: &str) -> Result<Vec<u8>, Halt> {
    let mut bytes = Vec::new(alloc);
    if !text.is_empty() {
        for line in text.split(" / ") {
            bytes.extend_from_slice(line.as_bytes())?;
            bytes.push(b'\n')?;
        }
    }
    Ok(bytes)
}
