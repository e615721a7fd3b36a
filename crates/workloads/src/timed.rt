//! Keys of which each is timed.

use crate::keystroke::{WIDTH, document_of, look, press_and_show, shared_tables, show};
use anyhow::{Result, bail};
use bg_types::Base;
use desk_workloads::{Desk, Way, desk_of, keys_of, press_at_desk};
use live_document::Document;
use std::rc::Rc;
use std::time::Instant;
use ucd_files::Tables;
use view_cache::View;
use view_workloads::draw::LONGEST;

/// How many paragraphs a view keeps.
const ROOM: usize = 10_000;

/// More rows than the texts have.
const ROWS: usize = 1_000_000;

/// The way of a name.
fn way_of(name: &str) -> Result<Way> {
    match name {
        "bursts" => Ok(Way::Bursts),
        "elsewhere" => Ok(Way::Elsewhere),
        "remote" => Ok(Way::Remote),
        "corrected" => Ok(Way::Corrected),
        _ => bail!("no such keys"),
    }
}

/// Presses keys in a text, and writes for each the nanoseconds that it took with what follows it: the window of a live
/// document, which keeps the rows of four windows or all, a whole draw from a view, or nothing, at a desk alone.
pub fn keys(rt: &HostRuntime, follows: &str, way: &str, count: usize, text: &str) -> Result<()> {
    let way = way_of(way)?;
    let tables = shared_tables(rt.alloc())?;
    match follows {
        "window" => {
            let mut document = document_of(rt.alloc(), tables)?;
            show_each(rt, &mut document, way, count, text)
        }
        "kept" => {
            let mut document = document_of(rt.alloc(), tables)?;
            document.keep_rows(ROWS);
            show_each(rt, &mut document, way, count, text)
        }
        "draw" => {
            let mut desk = desk_of(rt.alloc(), 1);
            draw_each(rt, &mut desk, &tables, way, count, text)
        }
        "nothing" => {
            let mut desk = desk_of(rt.alloc(), 1);
            press_each(rt, &mut desk, way, count, text)
        }
        _ => bail!("nothing such follows"),
    }
}

fn show_each(
    rt: &HostRuntime,
    document: &mut Document,
    way: Way,
    count: usize,
    text: &str,
) -> Result<()> {
    let mut made = Vec::new(rt.alloc());
    document.type_text(0, text, &mut made)?;
    show(document, 0)?;
    for key in &keys_of(rt.alloc(), document.desk(), way, count)? {
        let start = Instant::now(rt)?;
        press_and_show(document, key, &mut made)?;
        let seen = look(document);
        tell(rt, start, seen)?;
    }
    Ok(())
}

fn draw_each(
    rt: &HostRuntime,
    desk: &mut Desk,
    tables: &Rc<Tables>,
    way: Way,
    count: usize,
    text: &str,
) -> Result<()> {
    let mut view = View::with_room(rt.alloc(), tables, ROOM)?;
    let mut made = Vec::new(rt.alloc());
    desk.type_text(0, text, &mut made)?;
    draw(&mut view, desk)?;
    for key in &keys_of(rt.alloc(), desk, way, count)? {
        let start = Instant::now(rt)?;
        press_at_desk(desk, key, &mut made)?;
        let seen = draw(&mut view, desk)?;
        tell(rt, start, seen)?;
    }
    Ok(())
}

/// Draws the whole text of a desk, and answers how many rows it has.
fn draw(view: &mut View, desk: &Desk) -> Result<usize> {
    let text = desk.text()?;
    if text.len() > LONGEST {
        bail!("too large");
    }
    let grid = view.draw(WIDTH, Base::Auto, &text)?;
    Ok(grid.rows().len())
}

fn press_each(rt: &HostRuntime, desk: &mut Desk, way: Way, count: usize, text: &str) -> Result<()> {
    let mut made = Vec::new(rt.alloc());
    desk.type_text(0, text, &mut made)?;
    for key in &keys_of(rt.alloc(), desk, way, count)? {
        let start = Instant::now(rt)?;
        press_at_desk(desk, key, &mut made)?;
        tell(rt, start, desk.len())?;
    }
    Ok(())
}

fn tell(rt: &HostRuntime, start: Instant, seen: usize) -> Result<()> {
    let nanos = start.elapsed(rt)?.as_nanos();
    println!(rt; "{nanos} {seen}")?;
    Ok(())
}
