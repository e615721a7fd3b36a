//! What is done to a whole text at once: it is pasted, told by another desk, and opened.

use crate::keystroke::{WIDTH, document_of, shared_tables, show};
use anyhow::Result;
use bg_types::{Base, Op};
use desk_workloads::{Desk, Digest, KEY, desk_of};
use live_document::Document;
use op_codec::{decode_file, encode_file};
use std::alloc::Global;
use std::rc::Rc;
use std::time::Instant;
use ucd_files::Tables;

/// Pastes a text at a desk and into a document, and lets another desk and another document merge it. Writes what each took.
pub fn paste(rt: &HostRuntime, text: &str) -> Result<()> {
    let mut desk = desk_of(rt.alloc(), 1);
    paste_from(rt, &mut desk, text)
}

/// Pastes a text at a desk that has nothing yet, as `paste` does.
fn paste_from(rt: &HostRuntime, desk: &mut Desk, text: &str) -> Result<()> {
    let tables = shared_tables(rt.alloc())?;
    let mut made = Vec::new(rt.alloc());
    let start = Instant::now(rt)?;
    type_at_desk(desk, text, &mut made)?;
    tell(rt, "typed at a desk", start)?;
    type_anew(rt, tables.clone()?, text)?;
    merge_at_another(rt, desk)?;
    merge_anew(rt, tables, desk)
}

fn type_anew(rt: &HostRuntime, tables: Rc<Tables>, text: &str) -> Result<()> {
    let mut document = document_of(rt.alloc(), tables)?;
    // What a document has shown it keeps up to date.
    show(&mut document, 0)?;
    time_typing(rt, &mut document, text)
}

fn time_typing(rt: &HostRuntime, document: &mut Document, text: &str) -> Result<()> {
    let mut made = Vec::new(rt.alloc());
    let start = Instant::now(rt)?;
    type_into(document, text, &mut made)?;
    tell(rt, "typed into a document", start)?;
    time_window(rt, document)
}

fn merge_at_another(rt: &HostRuntime, from: &Desk) -> Result<()> {
    let mut desk = desk_of(rt.alloc(), 2);
    let start = Instant::now(rt)?;
    merge_at_desk(&mut desk, from)?;
    tell(rt, "merged by a desk", start)
}

fn merge_anew(rt: &HostRuntime, tables: Rc<Tables>, from: &Desk) -> Result<()> {
    let mut document = document_of(rt.alloc(), tables)?;
    show(&mut document, 0)?;
    time_merging(rt, &mut document, from)
}

fn time_merging(rt: &HostRuntime, document: &mut Document, from: &Desk) -> Result<()> {
    let start = Instant::now(rt)?;
    merge_into(document, from)?;
    tell(rt, "merged by a document", start)?;
    time_window(rt, document)
}

fn time_window(rt: &HostRuntime, document: &mut Document) -> Result<()> {
    let start = Instant::now(rt)?;
    show(document, 0)?;
    tell(rt, "its window", start)
}

#[inline(never)]
fn type_at_desk(desk: &mut Desk, text: &str, made: &mut Vec<Op>) -> Result<()> {
    desk.type_text(0, text, made)?;
    Ok(())
}

#[inline(never)]
fn type_into(document: &mut Document, text: &str, made: &mut Vec<Op>) -> Result<()> {
    document.type_text(0, text, made)?;
    Ok(())
}

#[inline(never)]
fn merge_at_desk(desk: &mut Desk, from: &Desk) -> Result<()> {
    desk.merge(from)?;
    Ok(())
}

#[inline(never)]
fn merge_into(document: &mut Document, from: &Desk) -> Result<()> {
    document.merge(from)?;
    Ok(())
}

/// Opens the operation file of a text: it is shown by a document, and read as text. Writes what each took.
pub fn open(rt: &HostRuntime, text: &str) -> Result<()> {
    let tables = shared_tables(rt.alloc())?;
    let file = file_of(rt.alloc(), text)?;
    let start = Instant::now(rt)?;
    show_file(rt.alloc(), &file, tables)?;
    tell(rt, "a document of the file with its window", start)?;
    let mut digest = Digest::new();
    let start = Instant::now(rt)?;
    read_as_text(rt.alloc(), &[file], &mut digest)?;
    tell(rt, "the file read as text", start)
}

/// Lets a desk take a file, and shows the first window of a document of it.
fn show_file(alloc: Global, file: &[u8], tables: Rc<Tables>) -> Result<()> {
    let desk = taken(alloc, file)?;
    let mut document = document_over(alloc, desk, tables)?;
    show(&mut document, 0)
}

/// The operation file of one who typed a text.
fn file_of(alloc: Global, text: &str) -> Result<Vec<u8>> {
    let mut desk = desk_of(alloc, 2);
    let mut made = Vec::new(alloc);
    desk.type_text(0, text, &mut made)?;
    Ok(encode_file(alloc, &made)?)
}

#[inline(never)]
fn read_as_text(alloc: Global, files: &[Vec<u8>], digest: &mut Digest) -> Result<()> {
    desk_files::text(alloc, KEY, files, digest)?;
    Ok(())
}

#[inline(never)]
fn taken(alloc: Global, file: &[u8]) -> Result<Desk> {
    let ops = decode_file(alloc, file)?;
    let mut desk = desk_of(alloc, 1);
    desk.take_all(&ops).map_err(|stop| stop.fault)?;
    Ok(desk)
}

#[inline(never)]
fn document_over(alloc: Global, desk: Desk, tables: Rc<Tables>) -> Result<Document> {
    Ok(Document::of(alloc, desk, tables, WIDTH, Base::Auto)?)
}

fn tell(rt: &HostRuntime, what: &str, start: Instant) -> Result<()> {
    let micros = start.elapsed(rt)?.as_micros();
    println!(rt; "{what}: {micros} us")?;
    Ok(())
}
