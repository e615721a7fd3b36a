//! What no clause says: texts, blocks, and where elements stand, over all sequences.

use crate::every_sequence::*;
use crate::rows::assert_none;
use rga_runs::Runs;
use rga_sequence::*;
use rga_tree::{Fresh, Plain, Sequence};
use std::alloc::Global;
use std::process::Abort;

/// Tries all sequences.
fn assert_all<T: Trial<Blocks> + Trial<Plain> + Trial<Runs>>(
    rt: &(impl Abort + AllocGlobal),
    trials: &[T],
) {
    assert_none(
        rt,
        "the blocks",
        first_wrong::<Blocks, T>(rt.alloc(), trials),
    );
    assert_none(
        rt,
        "the plain row",
        first_wrong::<Plain, T>(rt.alloc(), trials),
    );
    assert_none(
        rt,
        "the stretches",
        first_wrong::<Runs, T>(rt.alloc(), trials),
    );
}

/// Tries blocks alone.
fn assert_blocks<T: Trial<Blocks>>(rt: &(impl Abort + AllocGlobal), trials: &[T]) {
    assert_none(
        rt,
        "the blocks",
        first_wrong::<Blocks, T>(rt.alloc(), trials),
    );
}

#[test]
fn all_keep_every_line(rt: HostRuntime) {
    assert_all(&rt, LINES);
}

#[test]
fn all_keep_long_rows(rt: HostRuntime) {
    assert_all(&rt, THOUSANDS);
}

#[test]
fn all_keep_all_where_room_is_refused(rt: HostRuntime) {
    assert_all(&rt, ROOMS);
}

fn letter(counter: u32) -> char {
    (b'a' + (counter % 26) as u8) as char
}

/// Puts (1,1) after the root, and then each after the one before.
fn put_chain(seq: &mut Tried<Blocks>, count: u32) -> bool {
    let mut above = (0, 0);
    for counter in 1..=count {
        let name = (counter, 1);
        if !seq.put((name, above, letter(counter), false)) {
            return false;
        }
        above = name;
    }
    true
}

/// Whether both calls find this element at visible place k, each with this many looks.
fn is_found(seq: &mut Tried<Blocks>, k: usize, name: Name, looks: u64) -> bool {
    if k >= seq.seq.len() {
        return false;
    }
    let found = id(name) == Some(seq.seq.id_at(k)) && seq.seq.looks() == looks;
    found && seq.at(k).is_some() && seq.seq.looks() == looks
}

/// How many elements a chain has, which of them are erased, what is then placed, how many blocks
/// there are, how many elements are visible, and some visible places: which element is there, and how
/// many looks find it.
struct Split(
    u32,
    &'static [u32],
    &'static [Row],
    usize,
    usize,
    &'static [(usize, Name, u64)],
);

const SPLITS: &[Split] = &[
    Split(
        512,
        &[],
        &[],
        1,
        512,
        &[(0, (1, 1), 2), (511, (512, 1), 513)],
    ),
    // A full block is split for one more.
    Split(
        512,
        &[],
        &[((513, 1), (512, 1), 'z', false)],
        2,
        513,
        &[(0, (1, 1), 2), (512, (513, 1), 259)],
    ),
    // After the last of a block, even where all that follow are less.
    Split(
        513,
        &[],
        &[((600, 2), (256, 1), 'z', false)],
        2,
        514,
        &[(256, (600, 2), 258), (257, (257, 1), 3)],
    ),
    // Erased ones stay erased across a split.
    Split(
        512,
        &[1, 256, 257, 512],
        &[((513, 1), (512, 1), 'z', true)],
        2,
        508,
        &[
            (0, (2, 1), 3),
            (253, (255, 1), 256),
            (254, (258, 1), 4),
            (507, (511, 1), 257),
        ],
    ),
];

impl Trial<Blocks> for Split {
    fn comes_out(&self, seq: &mut Tried<Blocks>) -> bool {
        let Split(count, erased, more, blocks, visible, finds) = self;
        let mut right = put_chain(seq, *count);
        for counter in *erased {
            right = seq.erase((*counter, 1)) && right;
        }
        right = seq.put_all(more) && right;
        right = seq.seq.blocks() == *blocks && seq.seq.len() == *visible && right;
        for (k, name, looks) in *finds {
            right = is_found(seq, *k, *name, *looks) && right;
        }
        right
    }
}

#[test]
fn a_full_block_is_split_for_one_more(rt: HostRuntime) {
    assert_blocks(&rt, SPLITS);
}

/// A parent, and the place at which (600,2) stands once it was put after that into a chain of 512.
struct At(Name, usize);

impl Trial<Blocks> for At {
    fn comes_out(&self, seq: &mut Tried<Blocks>) -> bool {
        let At(parent, place) = *self;
        let mut right = put_chain(seq, 512);
        right = seq.put(((600, 2), parent, 'z', false)) && seq.seq.blocks() == 2 && right;
        for j in 0..513usize {
            let before = if j < place { j + 1 } else { j };
            let counter = if j == place { 600 } else { before };
            right = seq.counter_at(j) as usize == counter && seq.is_told_at(j) && right;
        }
        right
    }
}

const PLACES: &[At] = &[
    At((0, 0), 0),
    At((1, 1), 1),
    At((255, 1), 255),
    At((256, 1), 256),
    At((257, 1), 257),
    At((512, 1), 512),
];

#[test]
fn a_block_is_split_at_any_place(rt: HostRuntime) {
    assert_blocks(&rt, PLACES);
}

/// Whether a text is the character of (1,1), and then those of 1,300 down to 2.
fn is_falling(text: &str) -> bool {
    let mut right = text.len() == 1300;
    for (k, ch) in text.chars().enumerate() {
        let counter = if k == 0 {
            1
        } else {
            1301usize.saturating_sub(k)
        };
        right = ch == letter((counter % 26) as u32) && right;
    }
    right
}

/// 1,299 children of (1,1), placed in falling order or not, stand in falling order.
struct Children {
    falling: bool,
}

impl Trial<Blocks> for Children {
    fn comes_out(&self, seq: &mut Tried<Blocks>) -> bool {
        let mut right = put_chain(seq, 1);
        for k in 0..1299u32 {
            let counter = if self.falling { 1300 - k } else { 2 + k };
            right = seq.put(((counter, 2), (1, 1), letter(counter), false)) && right;
        }
        right = seq.text().is_ok_and(|text| is_falling(text.as_str())) && right;
        right = seq.put(((2, 1), (1, 1), 'z', false)) && right;
        right = seq.seq.placed() == 1301 && seq.seq.blocks() <= 6 && right;
        seq.nth(1300).is_some_and(|row| row.0 == (2, 1)) && right
    }
}

#[test]
fn many_children_stand_in_falling_order(rt: HostRuntime) {
    assert_blocks(
        &rt,
        &[Children { falling: false }, Children { falling: true }],
    );
}

/// A number that looks random, made from the one before.
fn stir(seed: u64) -> u64 {
    seed.wrapping_mul(6_364_136_223_846_793_005)
        .wrapping_add(1_442_695_040_888_963_407)
}

/// An element below element j, or below the root. Its identifier is above its parent's by little.
fn random_row(seq: &Tried<Plain>, seed: u64) -> Row {
    let j = (seed >> 20) as usize % seq.seq.placed().max(1);
    let parent = match seq.nth(j) {
        Some(row) if seed % 13 > 0 => row.0,
        _ => (0, 0),
    };
    let counter = parent.0.saturating_add(1 + ((seed >> 40) % 30) as u32);
    let site = 1 + ((seed >> 48) % 60_000) as u16;
    ((counter, site), parent, letter(counter), seed % 7 == 0)
}

/// Makes 2,500 changes to both, and returns whether both answered the same.
fn change_both<S: Fresh>(seq: &mut Tried<S>, plain: &mut Tried<Plain>) -> bool {
    let mut seed = 20;
    let mut same = true;
    for _ in 0..2_500 {
        seed = stir(seed);
        let row = random_row(plain, seed);
        same = seq.put(row) == plain.put(row) && same;
        if seed % 11 == 0 {
            same = seq.erase(row.0) == plain.erase(row.0) && same;
        }
    }
    same
}

/// Whether both show the same at each place.
fn show_the_same<S: Fresh>(seq: &mut Tried<S>, plain: &mut Tried<Plain>) -> bool {
    let mut same = seq.seq.placed() == plain.seq.placed();
    for j in 0..plain.seq.placed() {
        same = match plain.nth(j) {
            Some(row) => seq.stands_at(j, row) && same,
            None => false,
        };
    }
    for k in 0..=plain.seq.len() {
        same = seq.at(k) == plain.at(k) && same;
    }
    same
}

/// Whether each visible element is found in few looks.
fn are_found_soon(blocks: &mut Tried<Blocks>) -> bool {
    let most = (blocks.seq.blocks() as u64).saturating_add(512);
    let mut soon = true;
    for k in 0..blocks.seq.len() {
        soon = blocks.at(k).is_some() && blocks.seq.looks() <= most && soon;
    }
    soon
}

/// Changes that look random are made to blocks and to a plain row alike.
struct Random;

impl Trial<Blocks> for Random {
    fn comes_out(&self, blocks: &mut Tried<Blocks>) -> bool {
        let mut plain = Tried::new(blocks.alloc);
        stand_alike(blocks, &mut plain)
    }
}

fn stand_alike(blocks: &mut Tried<Blocks>, plain: &mut Tried<Plain>) -> bool {
    change_both(blocks, plain)
        && 2_000 < blocks.seq.placed()
        && 5 < blocks.seq.blocks()
        && show_the_same(blocks, plain)
        && are_found_soon(blocks)
}

impl Trial<Runs> for Random {
    fn comes_out(&self, runs: &mut Tried<Runs>) -> bool {
        let mut plain = Tried::new(runs.alloc);
        change_both(runs, &mut plain)
            && 2_000 < runs.seq.placed()
            && show_the_same(runs, &mut plain)
    }
}

/// Changes that look random, of which most go on where the one before stood, so that stretches grow and are parted.
#[derive(Drop)]
struct Stretches {
    seed: u64,
    /// How many changes one after the other begin anew, of this many.
    anew: u64,
}

/// The row that goes on behind the one before, or one that begins anew.
fn typed_row(plain: &Tried<Plain>, last: Row, seed: u64, anew: u64) -> Row {
    let (counter, site) = last.0;
    if counter == 0 || (seed >> 20) % anew.max(1) == 0 {
        return random_row(plain, seed);
    }
    let next = counter.saturating_add(if seed % 17 == 0 { 3 } else { 1 });
    ((next, site), last.0, letter(next), seed % 29 == 0)
}

/// Makes 2,500 such changes to both, and returns whether both answered the same.
fn type_both(runs: &mut Tried<Runs>, plain: &mut Tried<Plain>, seed: u64, anew: u64) -> bool {
    let mut seed = seed;
    let mut last = ((0, 0), (0, 0), 'a', false);
    let mut same = true;
    for _ in 0..2_500 {
        seed = stir(seed);
        last = typed_row(plain, last, seed, anew);
        same = runs.put(last) == plain.put(last) && same;
        if seed % 11 == 0 {
            same = runs.erase(last.0) == plain.erase(last.0) && same;
        }
    }
    same
}

impl Trial<Runs> for Stretches {
    fn comes_out(&self, runs: &mut Tried<Runs>) -> bool {
        let mut plain = Tried::new(runs.alloc);
        type_both(runs, &mut plain, self.seed, self.anew) && show_the_same(runs, &mut plain)
    }
}

#[test]
fn stretches_stand_as_the_plain_row(rt: HostRuntime) {
    let random = first_wrong::<Runs, Random>(rt.alloc(), &[Random]);
    assert_none(&rt, "random rows", random);
    let trials = [
        Stretches { seed: 3, anew: 4 },
        Stretches { seed: 5, anew: 20 },
        Stretches { seed: 8, anew: 90 },
    ];
    let typed = first_wrong::<Runs, Stretches>(rt.alloc(), &trials);
    assert_none(&rt, "typed rows", typed);
}

/// Puts a row into both.
fn put_both(runs: &mut Tried<Runs>, plain: &mut Tried<Plain>, row: Row) -> bool {
    runs.put(row) && plain.put(row)
}

/// A chain of 1,400 characters, of which each is a stretch of its own in the end, in room that was made for so many placings alone:
/// 700 that part a stretch, and then 700 more with 300 that part none.
struct Parted;

impl Trial<Runs> for Parted {
    fn comes_out(&self, runs: &mut Tried<Runs>) -> bool {
        let mut plain = Tried::new(runs.alloc);
        let mut right = put_both(runs, &mut plain, ((1, 1), (0, 0), 'a', false));
        for k in 1..1_400u32 {
            right = put_both(runs, &mut plain, ((k + 1, 1), (k, 1), letter(k), false)) && right;
        }
        right = runs.reserve(700) && right;
        for k in 1..=700u32 {
            right = put_both(runs, &mut plain, ((2_000 + k, 2), (2 * k, 1), 'x', false)) && right;
        }
        right = runs.seq.room() == 0 && runs.reserve(1_000) && right;
        for k in 1..=700u32 {
            right = put_both(
                runs,
                &mut plain,
                ((3_000 + k, 2), (2 * k - 1, 1), 'y', false),
            ) && right;
        }
        for k in 1..=300u32 {
            right = put_both(runs, &mut plain, ((4_000 + k, 3), (0, 0), 'z', false)) && right;
        }
        right && runs.seq.room() == 0 && show_the_same(runs, &mut plain)
    }
}

#[test]
fn placings_that_part_stretches_are_paid_for(rt: HostRuntime) {
    let parted = first_wrong::<Runs, Parted>(rt.alloc(), &[Parted]);
    assert_none(&rt, "parted rows", parted);
}

#[test]
fn blocks_stand_as_the_plain_row(rt: HostRuntime) {
    assert_blocks(&rt, &[Random]);
}
