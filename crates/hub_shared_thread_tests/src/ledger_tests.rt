//! Two threads write to one counted database: once their handles are joined, the length of its
//! journal is the number of their receipts.

ghost use Rattle.std.specs.Prelude.{◌≡◌, true, IfOk, vec_len};

use crate::tests::{LIFE, open};
use hub_database::{DbFault, Lookup};
use hub_document::{Doc, Limits};
use hub_shared::{Answer, Count, Counted, Db, Handle, Question, Receipt};
use std::alloc::{AllocError, Global};
use std::marker::Brand;
use std::sync::Wait;
use std::sync::ledger::{Blank, Ledger};
use std::thread::{self, Threads};

// The result of a thread: its handle, and the receipts of all edits that were written through it.
#[derive(Drop)]
struct Session<L: Ledger> {
    handle: Handle<Counted<L>>,
    receipts: Vec<Receipt>,
    ghost part: { handle.parts ≡ 1 },
    ghost counted: { handle.count ≡ vec_len receipts },
}

// The facts of both threads together.
#[derive(Drop)]
struct Report {
    /// How many receipts they got.
    receipts: u64,
    /// How many edits the journal has.
    update_seq: u64,
    /// How many edits the joined handles counted.
    count: u64,
    /// Whether the journal has the edit of each receipt, and each document is read with the revision of its
    /// receipt.
    are_told: bool,
    /// Whether a feed of the joined handles begins after all edits, in the database's life.
    is_followed: bool,
}

// A hundred documents whose ids begin with `front`.
fn hundred(alloc: Global, front: &str) -> Result<Vec<Doc>, AllocError> {
    let mut docs = Vec::new(alloc);
    for number in 0..100u64 {
        let text = format!(in alloc; r#"{{"_id":"{front}{number}"}}"#)?;
        let Ok(doc) = Doc::read(alloc, text.as_bytes(), true) else {
            return Err(AllocError);
        };
        docs.push(doc)?;
    }
    Ok(docs)
}

// Writes a hundred documents through a handle that has counted nothing.
fn write_all<L: Ledger + Send + Sync, R: Wait>(
    rt: &R,
    alloc: Global,
    mut handle: Handle<Counted<L>>,
    front: &'static str,
) -> Result<Session<L>, DbFault>
    requires part { handle.parts ≡ 1 }
    requires none { handle.count ≡ 0 }
{
    let docs = hundred(alloc, front)?;
    let accepted = handle.write(rt, docs, true)?;
    Ok(Session {
        handle,
        receipts: accepted.receipts,
    })
}

// How many edits the journal has.
fn update_seq<C: Count, R: Wait>(rt: &R, handle: &mut Handle<C>) -> Result<u64, DbFault>
    requires whole { (C.counts ≡ true) × (handle.old.parts ≡ C.all_parts) }
    ensures counted { IfOk result (λ seq. seq ≡ handle.old.count) }
    ensures same { handle.new ≡ handle.old }
{
    match handle.read(rt, Question::Info)? {
        Answer::Info(info) => Ok(info.update_seq),
        _ => unreachable!(),
    }
}

// Whether each document of a receipt is read with the receipt's revision.
fn are_read<C: Count, R: Wait>(
    rt: &R,
    alloc: Global,
    db: &mut Handle<C>,
    receipts: &[Receipt],
) -> Option<bool> {
    for receipt in receipts {
        let id = String::from_str(alloc, receipt.id.as_str()).ok()?;
        let Answer::Get(Lookup::Found(doc)) = db.read(rt, Question::Get { id, revs: false }).ok()?
        else {
            return None;
        };
        if doc.rev != Some(receipt.rev) {
            return Some(false);
        }
    }
    Some(true)
}

// Whether a feed of the handle begins after so many edits, in the database's life.
fn is_followed<C: Count, R: Wait>(rt: &R, alloc: Global, db: &mut Handle<C>, edits: u64) -> bool {
    let Some(feed) = open(rt, alloc, db, "since=now", "") else {
        return false;
    };
    let end = feed.finish(rt);
    end.label().since() == edits && end.label().life() == LIFE
}

// Whether the journal has the edit of each receipt, and each document is read with the revision of its receipt.
fn are_told<C: Count, R: Wait>(
    rt: &R,
    alloc: Global,
    db: &mut Handle<C>,
    receipts: &[Receipt],
) -> bool {
    db.audit(rt, receipts).is_ok() && are_read(rt, alloc, db, receipts) == Some(true)
}

// Joins the handles, and compares their count and their receipts with the journal.
fn compare<L: Ledger + Send + Sync, R: Wait>(
    rt: &R,
    alloc: Global,
    one: Session<L>,
    other: Session<L>,
) -> Result<Report, DbFault>
    requires { L.parts ≡ 2 }
    ensures { IfOk result (λ report. report.update_seq ≡ report.receipts) }
{
    let Session {
        mut handle,
        receipts,
    } = one;
    handle.join(rt, other.handle);
    let count = handle.count();
    let update_seq = update_seq(rt, &mut handle)?;
    let are_told = are_told(rt, alloc, &mut handle, receipts.as_slice())
        && are_told(rt, alloc, &mut handle, other.receipts.as_slice());
    let is_followed = is_followed(rt, alloc, &mut handle, count);
    Ok(Report {
        receipts: receipts.len() as u64 + other.receipts.len() as u64,
        update_seq,
        count,
        are_told,
        is_followed,
    })
}

// Two threads write, each through its own handle.
fn write_both<L: Ledger + Send + Sync + 'static, R: Threads + Wait + Sync>(
    rt: &R,
    alloc: Global,
    mine: Handle<Counted<L>>,
    theirs: Handle<Counted<L>>,
) -> Result<(Session<L>, Session<L>), DbFault>
    requires mine { (mine.parts ≡ 1) × (mine.count ≡ 0) }
    requires theirs { (theirs.parts ≡ 1) × (theirs.count ≡ 0) }
{
    let one = move || -> Result<Session<L>, DbFault>
        requires { (mine.parts ≡ 1) × (mine.count ≡ 0) }
    { write_all(rt, alloc, mine, "a") };
    let other = move || -> Result<Session<L>, DbFault>
        requires { (theirs.parts ≡ 1) × (theirs.count ≡ 0) }
    { write_all(rt, alloc, theirs, "b") };
    let (one, other) = thread::join(rt, one, other);
    Ok((one?, other?))
}

// Two threads write to a new database, each through its own handle.
fn write_from_two<L: Ledger + Send + Sync + 'static, R: Threads + Wait + Sync>(
    rt: &R,
    alloc: Global,
    blank: Blank,
) -> Result<Report, DbFault>
    requires name { blank.name ≡ L.name }
    requires parts { blank.parts ≡ L.parts }
    requires two { L.parts ≡ 2 }
    ensures { IfOk result (λ report. report.update_seq ≡ report.receipts) }
{
    let (_db, mut mine) = Db::new(alloc, Limits::full(), LIFE, Counted::<L>::new(blank))?;
    let theirs = mine.split(1)?;
    let (one, other) = write_both(rt, alloc, mine, theirs)?;
    compare(rt, alloc, one, other)
}

// Two threads write to a new database that has a ledger of its own.
fn report_of_two<R: Threads + Wait + Sync>(rt: &R, alloc: Global) -> Result<Report, DbFault>
    ensures { IfOk result (λ report. report.update_seq ≡ report.receipts) }
{
    write_from_two::<Brand, R>(rt, alloc, Blank::new(2))
}

#[test]
fn two_joined_handles_know_the_length(rt: HostRuntime) -> Result<(), DbFault> {
    let report = report_of_two(&rt, rt.alloc())?;
    assert!(rt; report.receipts == 200 && report.update_seq == 200 && report.count == 200);
    assert!(rt; report.are_told && report.is_followed);
    Ok(())
}
