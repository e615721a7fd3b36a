//! Whole texts that are laid out and printed, as when a window is opened.

use anyhow::{Result, bail};
use bg_types::Base;
use cell_grid::print;
use desk_workloads::{Chance, Digest, HEBREW, KNOTTED, LATIN, MIXED, Prose};
use std::alloc::Global;
use ucd_files::Tables;
use ucd_files::vectors::SMALL;
use view_cache::View;

/// The most bytes that are drawn.
pub const LONGEST: usize = 4_000_000;

/// A text and how it is drawn.
struct Picture {
    prose: Prose,
    bytes: usize,
    width: u16,
    base: Base,
}

const PICTURES: [Picture; 4] = [
    Picture {
        prose: MIXED,
        bytes: 3_900_000,
        width: 80,
        base: Base::Auto,
    },
    Picture {
        prose: LATIN,
        bytes: 2_000_000,
        width: 100,
        base: Base::Left,
    },
    Picture {
        prose: HEBREW,
        bytes: 3_000_000,
        width: 40,
        base: Base::Right,
    },
    Picture {
        prose: KNOTTED,
        bytes: 1_000_000,
        width: 20,
        base: Base::Auto,
    },
];

/// The streams of chance that the texts are made of, four texts each.
const STREAMS: [u32; 2] = [8, 28];

/// Draws two times a text of each kind from new views, and prints them.
pub fn draw(alloc: Global, seed: u32, share: usize, digest: &mut Digest) -> Result<()> {
    let tables = SMALL.load(alloc)?;
    for stream in STREAMS {
        draw_each(
            alloc,
            &tables,
            &mut Chance::new(seed, stream),
            share,
            digest,
        )?;
    }
    Ok(())
}

/// Draws a text of each kind.
fn draw_each(
    alloc: Global,
    tables: &Tables,
    chance: &mut Chance,
    share: usize,
    digest: &mut Digest,
) -> Result<()> {
    for picture in &PICTURES {
        let bytes = picture.bytes / share.max(1);
        let text = picture.prose.text(alloc, chance, bytes)?;
        show(alloc, tables, picture, text.as_str(), digest)?;
    }
    Ok(())
}

fn show(
    alloc: Global,
    tables: &Tables,
    picture: &Picture,
    text: &str,
    digest: &mut Digest,
) -> Result<()> {
    let width = picture.width;
    if text.len() > LONGEST || width < 2 || width > 500 {
        bail!("too large");
    }
    let mut view = View::new(alloc, tables)?;
    let grid = view.draw(width, picture.base, text)?;
    print(&grid, digest)?;
    Ok(())
}
