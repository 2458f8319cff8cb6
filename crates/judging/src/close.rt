//! The recording of journals as files: a head, and a trace a rank.

ghost use Rattle.std.specs.Prelude.{◌≡◌, ◌+◌, ◌<◌, ◌≤◌, [], false, length, Option, Some, List, ℕ, IfErr, IfOk, IfSome, OnOk};
ghost use Rattle.std.specs.Io.KnownBytes.{Appends};
ghost use Rattle.std.specs.List.{flat_map};
ghost use Rattle.mpicall.specs.Spelling.{spelling};
ghost use Rattle.closing.specs.Recording.{recording_of};
ghost use Rattle.closing.specs.Recordings.{calls_waiting, choice_in, list_at};
ghost use Rattle.closing.specs.Texts.{head_text as text_of_head, trace_text};
ghost use Rattle.lawful.specs.Laws.{IsRead};
ghost use Rattle.judging.specs.Closing.{AreFilesOf, IsFaultOfClose, IsWritten, LeavesFolder, close_fault};
ghost use Rattle.judging.specs.inner.Closed.{HasTraces, IsAfterReading, IsOfFiles, IsPut, IsUnbegun};
ghost use Rattle.judging.specs.inner.Turns.{HandsOn, IsFresh, StaysElse};
ghost use Rattle.judging.specs.declared.close.CloseFault.TheVariants.{Memory, Write};
ghost use Rattle.judging.specs.declared.close.FileName.{FileName as Name};
ghost use Rattle.judging.specs.declared.close.FileName.TheVariants.{Head, Trace};

use crate::head::head_text;
use crate::read::{Journals, ReadFault, read_journals};
use closing::choice::Choice;
use closing::recording::Recording;
use mpicall::device::{DeviceFault, Output, write_all};
use mpicall::page::{PAGE_BYTES, Page};
use mpicall::record::Record;
use std::alloc::{AllocError, AllocFailed, Global};
use std::sync::Wait;

/// A file of a recording.
#[derive(Clone, Copy, Debug, PartialEq, Eq)]
pub enum FileName {
    Head,
    /// The trace of a rank.
    Trace(u16),
}

/// Where the files of a recording go: `empty` is what is known of a file's text when it was made, that it has none or
/// nothing, and `text` what is known of the file with a name, once it was taken back.
pub trait Folder {
    type Out: Output + Drop;

    ghost empty: { Self → Option (List ℕ) };

    ghost text: { Self → Name → Option (List ℕ) };

    /// Makes the folder, which must not be there; says whether that was done.
    fn make(&mut self) -> bool
        ensures empty { empty self.new ≡ empty self.old }
        ensures unmade { result ≡ false → self.new ≡ self.old };

    /// A file, which isn't there before; None where it can't be made.
    fn create(&mut self, name: FileName) -> Result<Option<Self::Out>, AllocError>
        ensures empty { empty self.new ≡ empty self.old }
        ensures kept { (other : Name) → text self.new other ≡ text self.old other }
        ensures made { IfOk result (λ made. IfSome made (λ out. IfSome (empty self.old) (λ bytes. Self.Out.written out ≡ Some bytes))) };

    /// Takes a file back that was written. A folder that keeps files wants memory for them.
    fn take_back(&mut self, name: FileName, out: Self::Out) -> Result<(), AllocError>
        ensures empty { empty self.new ≡ empty self.old }
        ensures kept { (other : Name) → (other ≡ name → ⊥) → text self.new other ≡ text self.old other }
        ensures taken { OnOk result (IfSome (empty self.old) (λ bytes. text self.new name ≡ Self.Out.written out)) };
}

/// Why the files weren't written.
#[derive(Clone, Copy, Debug, PartialEq, Eq)]
pub enum CloseFault {
    /// The journals weren't read.
    Read(ReadFault),
    /// The folder can't be made.
    Make,
    Write,
    Memory,
}

impl From<AllocError> for CloseFault {
    ghost from_gives = { λ _ fault. fault ≡ Memory };

    fn from(_fault: AllocError) -> CloseFault {
        CloseFault::Memory
    }
}

impl<T: Drop> From<AllocFailed<T>> for CloseFault {
    ghost from_gives = { λ _ fault. fault ≡ Memory };

    fn from(_fault: AllocFailed<T>) -> CloseFault {
        CloseFault::Memory
    }
}

impl From<DeviceFault> for CloseFault {
    ghost from_gives = { λ _ fault. fault ≡ Write };

    fn from(_fault: DeviceFault) -> CloseFault {
        CloseFault::Write
    }
}

impl From<ReadFault> for CloseFault {
    ghost from_gives = { λ it fault. fault ≡ close_fault it };

    fn from(fault: ReadFault) -> CloseFault {
        match fault {
            ReadFault::Memory => CloseFault::Memory,
            fault => CloseFault::Read(fault),
        }
    }
}

/// The room that a line of a trace is given, more than any takes.
const ROOM_BYTES: usize = 2048;

/// Writes a page where another line has no room on it.
#[tactic(auto, using(crate::proofs::PutLemmas::put_steps))]
fn make_room<O: Output>(page: &mut Page, out: &mut O) -> Result<(), DeviceFault>
    ensures room { OnOk result (length page.new + ROOM_BYTES ≤ PAGE_BYTES) }
    ensures put { OnOk result (IsPut (O.written out.old) (O.written out.new) page.old page.new []) }
{
    if page.as_str().len() > PAGE_BYTES - ROOM_BYTES {
        write_all(out, page.as_str().as_bytes())?;
        page.clear();
    }
    Ok(())
}

/// Puts the line of a call on a page, which is written before where that has no room.
#[tactic(auto, using(crate::proofs::PutLemmas::put_steps))]
fn put_call<O: Output>(page: &mut Page, call: &Record, out: &mut O) -> Result<(), DeviceFault>
    ensures { OnOk result (IsPut (O.written out.old) (O.written out.new) page.old page.new (spelling call.now)) }
{
    make_room(page, out)?;
    page.push_call(call.as_call());
    page.push_str("\n");
    Ok(())
}

/// Puts the lines of some calls.
#[tactic(auto, using(crate::proofs::PutLemmas::put_steps))]
fn put_calls<O: Output>(page: &mut Page, calls: &[Record], out: &mut O) -> Result<(), DeviceFault>
    ensures { OnOk result (IsPut (O.written out.old) (O.written out.new) page.old page.new (flat_map spelling calls.now)) }
{
    for call in calls {
        put_call(page, call, out)?;
    }
    Ok(())
}

/// Puts the lines of a rank's last entry.
fn put_entry<O: Output>(
    recording: &mut Recording,
    rank: u16,
    page: &mut Page,
    out: &mut O,
) -> Result<(), DeviceFault>
    ensures put { OnOk result (IsRead recording.old.run → rank < length recording.old.run →
        IsPut (O.written out.old) (O.written out.new) page.old page.new (flat_map spelling (calls_waiting recording.old rank))) }
    ensures handed { OnOk result (IsRead recording.old.run → HandsOn rank recording.old recording.new) }
    ensures left { OnOk result (recording.new.left ≡ recording.old.left) }
{
    put_calls(page, recording.records(rank), out)?;
    recording.forget_records(rank);
    Ok(())
}

/// Puts the lines of a rank's list, which is made here.
fn put_list<O: Output>(
    recording: &mut Recording,
    rank: u16,
    page: &mut Page,
    out: &mut O,
) -> Result<(), CloseFault>
    ensures put { OnOk result (IsUnbegun rank recording.old →
        IsPut (O.written out.old) (O.written out.new) page.old page.new (trace_text (list_at recording.old rank))) }
    ensures else_stays { OnOk result (IsUnbegun rank recording.old → StaysElse rank recording.old recording.new) }
    ensures fault { IfErr result IsOfFiles }
{
    for _entry in 0..u64::MAX {
        put_entry(recording, rank, page, out)?;
        if recording.is_over(rank) {
            return Ok(());
        }
        recording.step(rank)?;
    }
    Ok(())
}

/// Writes the trace of a rank.
fn write_trace<O: Output>(
    recording: &mut Recording,
    rank: u16,
    out: &mut O,
) -> Result<(), CloseFault>
    ensures text { OnOk result (IsUnbegun rank recording.old →
        Appends (O.written out.old) (O.written out.new) (trace_text (list_at recording.old rank))) }
    ensures else_stays { OnOk result (IsUnbegun rank recording.old → StaysElse rank recording.old recording.new) }
    ensures fault { IfErr result IsOfFiles }
{
    let mut page = Page::new();
    put_list(recording, rank, &mut page, out)?;
    write_all(out, page.as_str().as_bytes())?;
    Ok(())
}

/// Writes the file of a rank's trace.
fn write_file<F: Folder>(
    recording: &mut Recording,
    rank: u16,
    folder: &mut F,
) -> Result<(), CloseFault>
    ensures empty { OnOk result (F.empty folder.new ≡ F.empty folder.old) }
    ensures text { OnOk result (IsUnbegun rank recording.old →
        Appends (F.empty folder.old) (F.text folder.new (Trace rank)) (trace_text (list_at recording.old rank))) }
    ensures kept { OnOk result ((other : Name) → (other ≡ Trace rank → ⊥) → F.text folder.new other ≡ F.text folder.old other) }
    ensures else_stays { OnOk result (IsUnbegun rank recording.old → StaysElse rank recording.old recording.new) }
    ensures fault { IfErr result IsOfFiles }
{
    let name = FileName::Trace(rank);
    let Some(mut out) = folder.create(name)? else {
        return Err(CloseFault::Write);
    };
    write_trace(recording, rank, &mut out)?;
    folder.take_back(name, out)?;
    Ok(())
}

/// Writes a file with a text.
fn write_text<F: Folder>(name: FileName, text: &[u8], folder: &mut F) -> Result<(), CloseFault>
    ensures empty { OnOk result (F.empty folder.new ≡ F.empty folder.old) }
    ensures text { OnOk result (Appends (F.empty folder.old) (F.text folder.new name) text.now) }
    ensures fault { IfErr result IsOfFiles }
{
    let Some(mut out) = folder.create(name)? else {
        return Err(CloseFault::Write);
    };
    write_all(&mut out, text)?;
    folder.take_back(name, out)?;
    Ok(())
}

/// Writes the head of a recording.
fn write_head<F: Folder>(
    alloc: Global,
    recording: &Recording,
    folder: &mut F,
) -> Result<(), CloseFault>
    ensures empty { OnOk result (F.empty folder.new ≡ F.empty folder.old) }
    ensures text { OnOk result (IsRead recording.now.run →
        Appends (F.empty folder.old) (F.text folder.new Head) (text_of_head (recording_of recording.now.run recording.now.choice))) }
    ensures fault { IfErr result IsOfFiles }
{
    let text = head_text(alloc, recording.ranks(), recording.communicators())?;
    write_text(FileName::Head, text.as_bytes(), folder)
}

/// Writes the traces of all ranks.
fn write_traces<F: Folder>(recording: &mut Recording, folder: &mut F) -> Result<(), CloseFault>
    ensures text { OnOk result (IsFresh recording.old → IsRead recording.old.run →
        HasTraces (F.empty folder.old) (F.text folder.new) (length recording.old.run) recording.old) }
    ensures head { OnOk result (F.text folder.new Head ≡ F.text folder.old Head) }
    ensures fault { IfErr result IsOfFiles }
{
    for rank in 0..recording.ranks() {
        write_file(recording, rank, folder)?;
    }
    Ok(())
}

/// Makes a folder, and writes a recording there.
fn write_all_files<F: Folder>(
    alloc: Global,
    recording: &mut Recording,
    folder: &mut F,
) -> Result<(), CloseFault>
    ensures written { OnOk result (IsFresh recording.old → IsRead recording.old.run →
        AreFilesOf (F.empty folder.old) (F.text folder.new) (recording_of recording.old.run recording.old.choice)) }
    ensures fault { IfErr result IsAfterReading }
    ensures folder { IfErr result (LeavesFolder folder.old folder.new) }
{
    if !folder.make() {
        return Err(CloseFault::Make);
    }
    write_head(alloc, recording, folder)?;
    write_traces(recording, folder)
}

/// Reads the journals of a run, then makes the folder and writes their recording there.
pub fn close<J: Journals, F: Folder>(
    alloc: Global,
    journals: &J,
    choice: Choice,
    folder: &mut F,
    wait: &impl Wait,
) -> Result<(), CloseFault>
    ensures written { OnOk result (IsWritten (J.known journals.now) (choice_in choice) (F.empty folder.old) (F.text folder.new)) }
    ensures fault { IfErr result (IsFaultOfClose (J.known journals.now)) }
    ensures folder { IfErr result (LeavesFolder folder.old folder.new) }
{
    let journals = read_journals(alloc, journals, wait)?;
    let mut recording = Recording::of(alloc, journals, choice)?;
    write_all_files(alloc, &mut recording, folder)
}
