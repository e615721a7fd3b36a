//! What no clause says: that memory suffices, and which worlds come out.
//!
//! A world that memory was refused to is made again: so each test also passes with any one
//! allocation refused (`rt try --test --fail-alloc N`).

use crate::rows::{assert_none, assert_rows};
use Reply::{Done, NoSuch};
use Step::{Deliver, Erase, Merge, Typed};
use bg_types::{Id, Memory, Op, Place};
use desk_replica::{Replica, Reply, Step, World, WorldFault, run_world};
use rga_runs::Runs;
use rga_sequence::Blocks;
use rga_tree::{Fresh, Plain, Sequence};
use std::alloc::{AllocError, Global};
use test_rows::{Row, is_right};

/// A step, its reply, and the text of each desk then.
type Line = (Step, Reply, &'static [&'static str]);

/// What is wanted of a world.
#[derive(Clone, Copy)]
enum Wanted<'a> {
    /// The last reply, and the text of each desk.
    Ends(Reply, &'a [&'a str]),
    /// The operations that are made.
    Makes(&'a [Op]),
    /// No desk, operation or reply.
    Nothing,
    /// That there is none, as the sites are bad.
    BadSites,
}

/// Whether a desk reads as this text.
fn reads<S: Sequence>(desk: &Replica<S>, text: &str) -> Result<bool, Memory> {
    let read = desk.text()?;
    Ok(read.as_str() == text)
}

/// Whether the desks read as these texts.
fn read<S: Sequence>(desks: &[Replica<S>], texts: &[&str]) -> Result<bool, Memory> {
    let mut right = desks.len() == texts.len();
    for (desk, text) in desks.iter().zip(texts) {
        right = reads(desk, text)? && right;
    }
    Ok(right)
}

/// Whether a world is as is wanted.
fn is_wanted<S: Fresh>(world: &World<S>, wanted: &Wanted) -> Result<bool, Memory> {
    match wanted {
        Wanted::Ends(reply, texts) => {
            Ok(world.replies.last() == Some(reply) && read(&world.desks, texts)?)
        }
        Wanted::Makes(ops) => Ok(world.made.as_slice() == *ops),
        Wanted::Nothing => {
            Ok(world.desks.is_empty() && world.made.is_empty() && world.replies.is_empty())
        }
        Wanted::BadSites => Ok(false),
    }
}

/// Whether what steps made is as is wanted.
fn is_made<S: Fresh>(made: &Result<World<S>, WorldFault>, wanted: &Wanted) -> Result<bool, Memory> {
    match made {
        Ok(world) => is_wanted(world, wanted),
        Err(WorldFault::Memory) => Err(Memory),
        Err(WorldFault::BadSites) => Ok(matches!(wanted, Wanted::BadSites)),
    }
}

/// Whether steps done at fresh desks make what is wanted.
fn makes<S: Fresh>(
    alloc: Global,
    sites: &[u16],
    steps: &[Step],
    wanted: &Wanted,
) -> Result<bool, Memory> {
    let made = run_world::<S>(alloc, 0x5eed, sites, steps);
    is_made(&made, wanted)
}

/// Whether steps make what is wanted over all sequences.
fn all_make(alloc: Global, sites: &[u16], steps: &[Step], wanted: &Wanted) -> Result<bool, Memory> {
    Ok(
        makes::<Blocks>(alloc, sites, steps, wanted)?
            && makes::<Plain>(alloc, sites, steps, wanted)?
            && makes::<Runs>(alloc, sites, steps, wanted)?,
    )
}

/// The steps of lines.
fn steps_of(alloc: Global, lines: &[Line]) -> Result<Vec<Step>, AllocError> {
    let mut steps = Vec::new(alloc);
    for line in lines {
        steps.push(line.0)?;
    }
    Ok(steps)
}

/// What is played, the sites of its desks, and its lines.
struct Played(&'static str, &'static [u16], &'static [Line]);

/// The lines up to this one.
#[derive(Clone, Copy)]
struct UpTo<'a>(&'a Played, usize);

impl Row for UpTo<'_> {
    fn comes_out(&self, alloc: Global) -> Result<bool, Memory> {
        let UpTo(played, n) = self;
        let Some((_, reply, texts)) = played.2.get(*n) else {
            return Ok(false);
        };
        let steps = steps_of(alloc, &played.2[..=*n])?;
        let wanted = Wanted::Ends(*reply, texts);
        all_make(alloc, played.1, &steps, &wanted)
    }
}

impl Played {
    /// The first line that does not come out.
    fn wrong(&self, alloc: Global) -> Option<usize> {
        for n in 0..self.2.len() {
            if !is_right(alloc, &UpTo(self, n)) {
                return Some(n);
            }
        }
        None
    }
}

/// What two desks make, take and merge.
const TWO: &[Line] = &[
    (
        Typed {
            desk: 0,
            place: 0,
            ch: 'a',
        },
        Done,
        &["a", ""],
    ),
    (
        Typed {
            desk: 1,
            place: 0,
            ch: 'b',
        },
        Done,
        &["a", "b"],
    ),
    (Merge { desk: 0, from: 1 }, Done, &["ba", "b"]),
    (Merge { desk: 1, from: 0 }, Done, &["ba", "ba"]),
    (
        Typed {
            desk: 0,
            place: 2,
            ch: 'c',
        },
        Done,
        &["bac", "ba"],
    ),
    (Deliver { desk: 1, op: 2 }, Done, &["bac", "bac"]),
    (Deliver { desk: 1, op: 2 }, Done, &["bac", "bac"]),
    (Deliver { desk: 1, op: 7 }, NoSuch, &["bac", "bac"]),
    (
        Typed {
            desk: 1,
            place: 9,
            ch: 'x',
        },
        NoSuch,
        &["bac", "bac"],
    ),
    (Erase { desk: 2, place: 0 }, NoSuch, &["bac", "bac"]),
    (Erase { desk: 0, place: 0 }, Done, &["ac", "bac"]),
    (Merge { desk: 0, from: 0 }, Done, &["ac", "bac"]),
];

/// The operations of `TWO`.
fn made_by_two() -> Option<[Op; 4]> {
    let a = Id::new(1, 1)?;
    let b = Id::new(1, 2)?;
    Some([
        Op::insert(a, Place::Root, 'a')?,
        Op::insert(b, Place::Root, 'b')?,
        Op::insert(Id::new(2, 1)?, Place::After(a), 'c')?,
        Op::erase(b),
    ])
}

/// What `TWO` makes.
struct MadeByTwo;

impl Row for MadeByTwo {
    fn comes_out(&self, alloc: Global) -> Result<bool, Memory> {
        let Some(made) = made_by_two() else {
            return Ok(false);
        };
        let steps = steps_of(alloc, TWO)?;
        all_make(alloc, &[1, 2], &steps, &Wanted::Makes(&made))
    }
}

/// What reaches three desks: `b` before its parent and twice, the erasure of `a` before it, and `b`
/// after its parent was erased.
const THREE: &[Line] = &[
    (
        Typed {
            desk: 0,
            place: 0,
            ch: 'a',
        },
        Done,
        &["a", "", ""],
    ),
    (
        Typed {
            desk: 0,
            place: 1,
            ch: 'b',
        },
        Done,
        &["ab", "", ""],
    ),
    (Deliver { desk: 1, op: 1 }, Done, &["ab", "", ""]),
    (Deliver { desk: 1, op: 1 }, Done, &["ab", "", ""]),
    (Deliver { desk: 1, op: 0 }, Done, &["ab", "ab", ""]),
    (Erase { desk: 1, place: 0 }, Done, &["ab", "b", ""]),
    (Deliver { desk: 2, op: 2 }, Done, &["ab", "b", ""]),
    (Deliver { desk: 2, op: 0 }, Done, &["ab", "b", ""]),
    (Deliver { desk: 2, op: 1 }, Done, &["ab", "b", "b"]),
    (
        Typed {
            desk: 2,
            place: 1,
            ch: 'c',
        },
        Done,
        &["ab", "b", "bc"],
    ),
    (Merge { desk: 0, from: 2 }, Done, &["bc", "b", "bc"]),
    (
        Typed {
            desk: 0,
            place: 0,
            ch: 'd',
        },
        Done,
        &["dbc", "b", "bc"],
    ),
    (Merge { desk: 1, from: 0 }, Done, &["dbc", "dbc", "bc"]),
];

/// What three desks type at one place.
const ONE_PLACE: &[Line] = &[
    (
        Typed {
            desk: 0,
            place: 0,
            ch: 'p',
        },
        Done,
        &["p", "", ""],
    ),
    (
        Typed {
            desk: 1,
            place: 0,
            ch: 'q',
        },
        Done,
        &["p", "q", ""],
    ),
    (
        Typed {
            desk: 2,
            place: 0,
            ch: 'r',
        },
        Done,
        &["p", "q", "r"],
    ),
    (Merge { desk: 1, from: 0 }, Done, &["p", "pq", "r"]),
    (Merge { desk: 1, from: 2 }, Done, &["p", "prq", "r"]),
    (Merge { desk: 0, from: 1 }, Done, &["prq", "prq", "r"]),
    (Merge { desk: 2, from: 1 }, Done, &["prq", "prq", "prq"]),
    (
        Typed {
            desk: 0,
            place: 1,
            ch: 's',
        },
        Done,
        &["psrq", "prq", "prq"],
    ),
    (
        Typed {
            desk: 2,
            place: 1,
            ch: 't',
        },
        Done,
        &["psrq", "prq", "ptrq"],
    ),
    (Deliver { desk: 0, op: 4 }, Done, &["pstrq", "prq", "ptrq"]),
    (Deliver { desk: 2, op: 3 }, Done, &["pstrq", "prq", "pstrq"]),
];

/// Steps that name a desk, an operation or a place that is not there.
const NOT_THERE: &[Line] = &[
    (
        Typed {
            desk: 1,
            place: 0,
            ch: 'a',
        },
        NoSuch,
        &[""],
    ),
    (
        Typed {
            desk: 0,
            place: 1,
            ch: 'a',
        },
        NoSuch,
        &[""],
    ),
    (Erase { desk: 0, place: 0 }, NoSuch, &[""]),
    (Deliver { desk: 0, op: 0 }, NoSuch, &[""]),
    (Merge { desk: 0, from: 1 }, NoSuch, &[""]),
    (Merge { desk: 1, from: 0 }, NoSuch, &[""]),
    (
        Typed {
            desk: 0,
            place: 0,
            ch: 'a',
        },
        Done,
        &["a"],
    ),
    (Deliver { desk: 1, op: 0 }, NoSuch, &["a"]),
    (Erase { desk: 0, place: 1 }, NoSuch, &["a"]),
];

const PLAYED: &[Played] = &[
    Played("the steps of two desks", &[1, 2], TWO),
    Played("the steps of three desks", &[1, 2, 3], THREE),
    Played("the steps at one place", &[3, 1, 2], ONE_PLACE),
    Played(
        "the steps that name what is not there",
        &[65_535],
        NOT_THERE,
    ),
];

#[test]
fn tables_come_out(rt: HostRuntime) {
    for played in PLAYED {
        assert_none(&rt, played.0, played.wrong(rt.alloc()));
    }
    assert_rows(&rt, &[MadeByTwo]);
}

/// For trials with each growth refused: the lists of desks, operations and replies grow again.
#[test]
fn a_world_of_three_desks_comes_out(rt: HostRuntime) {
    assert_rows(&rt, &[UpTo(&PLAYED[1], 12)]);
}

/// Sites, and whether they are those of a world without desks, or else are refused.
struct Sites(&'static [u16], bool);

impl Row for Sites {
    fn comes_out(&self, alloc: Global) -> Result<bool, Memory> {
        let wanted = if self.1 {
            Wanted::Nothing
        } else {
            Wanted::BadSites
        };
        all_make(alloc, self.0, &[], &wanted)
    }
}

const SITES: &[Sites] = &[
    Sites(&[1, 1], false),
    Sites(&[0], false),
    Sites(&[1, 0, 2], false),
    Sites(&[5, 7, 9, 7], false),
    Sites(&[], true),
];

#[test]
fn bad_sites_are_refused(rt: HostRuntime) {
    assert_rows(&rt, SITES);
}
