//! One desk that takes the operations of all files.

ghost use Rattle.std.specs.Prelude.{◌≡◌, ◌≢◌, ◌<◌, ◌≤◌, ◌⊎◌, ◌++◌, false, List, Some, map as each, OnOk, IfOk, IfErr, length, string_bytes, encode_utf8_all};
ghost use Rattle.bg_types.specs.OperationSet.{no_operations, size};
ghost use Rattle.bg_types.specs.declared.op.OpView.{OpView as Operation};
ghost use Rattle.desk_replica.specs.SetOf.{IsSetOf};
ghost use Rattle.desk_replica.specs.Refusal.{IsFirstRefusal};
ghost use Rattle.rga_tree.specs.TextOf.{text};
ghost use Rattle.desk_files.specs.Readers.{IsAsked, IsToldFile, IsUnreadFile, AreWorking, AreAsked, AreGiven, EndsOver};
ghost use Rattle.desk_files.specs.Files.{IsSetOfFiles};
ghost use Rattle.desk_files.specs.Taking.{HasTaken, HasTakenBut, IsReordered};
ghost use Rattle.desk_files.specs.Cause.{IsTakingCaused, step_fault_of};
ghost use Rattle.desk_files.specs.TextOutcome.{IsTextOfFiles};
ghost use Rattle.desk_files.specs.declared.run_fault.RunFault.TheVariants.{Memory as run_memory};

use crate::desk::{Desk, let_go, new_desk, read_text};
use crate::reading::{PIECE, feed_piece, finish};
use crate::run_fault::RunFault;
use bg_types::{Id, Memory, Op, OpView, laws as sets};
use desk_replica::{MOST_OPERATIONS, TakeFault, laws as desks};
use op_codec::{LONGEST_FILE, Source, Stream};
use std::alloc::Global;

/// The site of the one desk.
const SITE: u16 = 1;

/// How many numbers a site may have.
const SITES: u64 = 65_536;

/// How many counters that follow each other are near each other: some bursts of a hand, and so few that little of what is
/// sorted waits.
const NEAR: u32 = 256;

/// By how many of the first operations it is judged whether they came out of order.
const LOOKED_AT: usize = 32;

/// The text of all operations of the files, which one desk takes: at most 4,000,000 bytes.
/// Cost: that of `take_files`, memory likewise, and O(n) for the text.
pub fn joined_text<R: Source>(alloc: Global, key: u128, files: &mut [R]) -> Result<String, RunFault>
    requires { AreWorking (each R.has_failed files.old) }
    ensures ok { IfOk result (λ text. AreGiven (each R.remaining files.old) (each R.has_failed files.new)
        (λ told. IsTextOfFiles told (string_bytes text))) }
    ensures size { IfOk result (λ text. length (string_bytes text) ≤ 4_000_000) }
    ensures asked { AreAsked (each R.remaining files.old) (each R.remaining files.new) }
    ensures fault { IfErr result (EndsOver (each R.remaining files.old) (each R.remaining files.new) (each R.has_failed files.new) IsTakingCaused) }
{
    let mut desk = new_desk(alloc, SITE, key);
    let text = text_with(alloc, files, &mut desk);
    let_go(desk);
    text
}

/// The text of all operations of the files, which a desk without operations takes.
fn text_with<R: Source>(alloc: Global, files: &mut [R], desk: &mut Desk) -> Result<String, RunFault>
    requires working { AreWorking (each R.has_failed files.old) }
    requires empty { desk.old.set ≡ no_operations }
    ensures ok { IfOk result (λ text. AreGiven (each R.remaining files.old) (each R.has_failed files.new)
        (λ told. IsTextOfFiles told (string_bytes text))) }
    ensures size { IfOk result (λ text. length (string_bytes text) ≤ 4_000_000) }
    ensures asked { AreAsked (each R.remaining files.old) (each R.remaining files.new) }
    ensures fault { IfErr result (EndsOver (each R.remaining files.old) (each R.remaining files.new) (each R.has_failed files.new) IsTakingCaused) }
{
    take_files(alloc, files, desk)?;
    text_of(desk)
}

/// A desk's text, or the fault of a run that lacks memory for it.
fn text_of(desk: &Desk) -> Result<String, RunFault>
    ensures value { IfOk result (λ t. string_bytes t ≡ encode_utf8_all (text desk.now.set)) }
    ensures size { IfOk result (λ t. length (string_bytes t) ≤ 4_000_000) }
    ensures fault { IfErr result (λ fault. fault ≡ run_memory) }
{
    let text = read_text(desk)?;
    Ok(text)
}

/// Lets a desk without operations take those of the files of all readers, one file after the other. A
/// refusal is reported only once all files are read, since a faulty file is reported first.
/// Cost: that of `Replica::take_all`, memory likewise, and 20 bytes for each operation that waits since it came out of
/// order.
pub fn take_files<R: Source>(
    alloc: Global,
    files: &mut [R],
    desk: &mut Desk,
) -> Result<(), RunFault>
    requires working { AreWorking (each R.has_failed files.old) }
    requires empty { desk.old.set ≡ no_operations }
    ensures ok { OnOk result (AreGiven (each R.remaining files.old) (each R.has_failed files.new) (λ told. IsSetOfFiles told desk.new.set)) }
    ensures limited { OnOk result (size desk.new.set ≤ 1_000_000) }
    ensures site { desk.new.site ≡ desk.old.site }
    ensures asked { AreAsked (each R.remaining files.old) (each R.remaining files.new) }
    ensures fault { IfErr result (EndsOver (each R.remaining files.old) (each R.remaining files.new) (each R.has_failed files.new) IsTakingCaused) }
{
    sets::nothing_held();
    let mut refused = None;
    for place in 0..files.len() {
        take_file(alloc, place + 1, &mut files[place], desk, &mut refused)?;
    }
    match refused {
        Some(fault) => Err(step_fault(0, 1, fault)),
        None => Ok(()),
    }
}

/// Takes the operations of the file of a reader, which has this number, piece by piece. After the
/// first refusal none is taken, and the file is read to its end.
fn take_file<R: Source>(
    alloc: Global,
    number: usize,
    reader: &mut R,
    desk: &mut Desk,
    refused: &mut Option<TakeFault>,
) -> Result<(), RunFault>
    requires { R.has_failed reader.old ≡ false }
    ensures taken { (before : List Operation) → HasTaken before desk.old.set refused.old
        → OnOk result ((ops : List Operation) × IsToldFile (R.remaining reader.old) ops × HasTaken (before ++ ops) desk.new.set refused.new) }
    ensures working { OnOk result (R.has_failed reader.new ≡ false) }
    ensures site { desk.new.site ≡ desk.old.site }
    ensures asked { IsAsked (R.remaining reader.old) (R.remaining reader.new) }
    ensures fault { IfErr result (IsUnreadFile number (R.remaining reader.old) (R.remaining reader.new) (R.has_failed reader.new)) }
{
    let mut waiting = Vec::new(alloc);
    let mut stream = Stream::new();
    let mut piece = [0; PIECE];
    let mut left = LONGEST_FILE;
    while let Some(given) = reader.get(&mut piece) {
        if given == 0 {
            finish(number, &stream)?;
            take_more(desk, refused, &mut waiting)?;
            return Ok(());
        }
        feed_piece(number, &mut stream, left, &piece[..given], &mut waiting)?;
        take_unless_more_come(desk, refused, &mut waiting)?;
        left -= given;
    }
    Err(RunFault::ReadFailed(number))
}

/// Takes what waits, unless it came out of order: then more is awaited, to be taken with it, but never
/// 1,000,000 operations or more.
fn take_unless_more_come(
    desk: &mut Desk,
    refused: &mut Option<TakeFault>,
    waiting: &mut Vec<Op>,
) -> Result<(), Memory>
    ensures taken { (ops : List Operation) → HasTakenBut waiting.old.items ops desk.old.set refused.old
        → OnOk result (HasTakenBut waiting.new.items ops desk.new.set refused.new) }
    ensures few { OnOk result (length waiting.new.items < 1_000_000) }
    ensures site { desk.new.site ≡ desk.old.site }
{
    if waiting.len() < MOST_OPERATIONS as usize && came_out_of_order(waiting) {
        return Ok(());
    }
    take_more(desk, refused, waiting)?;
    waiting.clear();
    Ok(())
}

/// Takes further operations, unless one before them was refused, and notes the first refusal.
fn take_more(desk: &mut Desk, refused: &mut Option<TakeFault>, ops: &mut [Op]) -> Result<(), Memory>
    ensures taken { (before : List Operation) → HasTaken before desk.old.set refused.old → OnOk result (HasTaken (before ++ ops.old) desk.new.set refused.new) }
    ensures site { desk.new.site ≡ desk.old.site }
{
    sets::one_more_operation();
    desks::one_set();
    desks::one_refusal();
    desks::none_refused();
    if refused.is_some() {
        return Ok(());
    }
    put_in_order(desk, ops);
    match desk.take_all(ops) {
        Ok(()) => Ok(()),
        Err(stop) => keep_refusal(refused, stop.fault),
    }
}

/// Notes the fault of a refusal. Lack of memory is none.
fn keep_refusal(refused: &mut Option<TakeFault>, fault: TakeFault) -> Result<(), Memory>
    ensures { OnOk result ((refused.new ≡ Some fault) × (fault ≢ TakeFault.Memory)) }
{
    match fault {
        TakeFault::IdentifierReused | TakeFault::Full => {
            *refused = Some(fault);
            Ok(())
        }
        TakeFault::Memory => Err(Memory),
    }
}

/// Sorts operations that came out of order by their turns, the cheap order to take them in. Only where the
/// desk has room for them all, since which one it would refuse as too many depends on the order.
fn put_in_order(desk: &Desk, ops: &mut [Op])
    ensures { IsReordered desk.now.set ops.old ops.new }
{
    if came_out_of_order(ops) && ops.len() <= MOST_OPERATIONS as usize - desk.op_count() {
        ops.sort_unstable_by_key(turn);
    }
}

/// An operation's turn among those that are sorted: by counters, but where these are near each other site by site, so that what
/// a site typed in one go comes in one go. A deletion comes right behind what it names.
fn turn(op: &Op) -> (u64, u64) {
    match op.view() {
        OpView::Insert { id, .. } => (group(id), 2 * u64::from(id.counter())),
        OpView::Erase { target } => (group(target), 2 * u64::from(target.counter()) + 1),
    }
}

/// The number of the identifiers of one site whose counters are near each other.
fn group(id: Id) -> u64 {
    u64::from(id.counter() / NEAR) * SITES + u64::from(id.site())
}

/// Whether of the first operations more than a quarter insert under a smaller identifier than the one before names.
fn came_out_of_order(ops: &[Op]) -> bool {
    let first = &ops[..ops.len().min(LOOKED_AT)];
    let mut falls = 0;
    for k in 1..first.len() {
        if falls_back(&first[k], &first[k - 1]) {
            falls += 1;
        }
    }
    falls > first.len() / 4
}

/// Whether an operation inserts under a smaller identifier than the one before it names. Deletions come in no order of what
/// they name.
fn falls_back(op: &Op, before: &Op) -> bool {
    match op.view() {
        OpView::Insert { id, .. } => id < named(before),
        OpView::Erase { .. } => false,
    }
}

/// The identifier that an operation inserts or deletes.
fn named(op: &Op) -> Id {
    match op.view() {
        OpView::Insert { id, .. } => id,
        OpView::Erase { target } => target,
    }
}

/// The fault of a run for a fault of a desk at the step of a line: lack of memory is the fault of no step.
pub fn step_fault(line: usize, desk: usize, fault: TakeFault) -> RunFault
    ensures { result ≡ step_fault_of line desk fault }
{
    match fault {
        TakeFault::IdentifierReused | TakeFault::Full => RunFault::Step(line, desk, fault),
        TakeFault::Memory => RunFault::Memory,
    }
}
