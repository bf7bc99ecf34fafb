// The stage in memory on which a request is done.

ghost use Rattle.std.specs.Prelude.{◌≡◌, IfOk, IfSome, OnOk, None, take, map, string_bytes};
ghost use Rattle.std.specs.Option.{option_map};
ghost use Rattle.paw_stage.specs.inner.Memory.{standing_of};
ghost use Rattle.paw_page.specs.Stands.{standing_before, file_left};
ghost use Rattle.paw_page.specs.inner.Read.{asked_by, entry_of};
ghost use Rattle.paw_page.specs.inner.Standing.{with_entries, with_more_lines};

use crate::request::{HeldRequest, PageFile};
use paw_base::fault::NoRoom;
use paw_base::lists::Rows;
use paw_stage::{LoadRefusal, MemoryStage, Stage};
use std::alloc::Global;

// Puts files there, at which no store is attached.
fn add_files(stage: &mut MemoryStage, files: &[PageFile]) -> Result<(), NoRoom>
    requires apart { (standing_of stage.old).attached ≡ None }
    ensures stands { OnOk result (standing_of stage.new ≡ with_entries (map entry_of files.now) (standing_of stage.old)) }
{
    for file in files {
        match stage.add_file(file.name.as_str(), file.bytes.rows.as_slice()) {
            Ok(()) => {}
            Err(e) => return Err(e),
        }
    }
    Ok(())
}

// Puts lines there, after those that are left.
fn add_lines(alloc: Global, stage: &mut MemoryStage, lines: &[Rows<u8>]) -> Result<(), NoRoom>
    ensures stands { OnOk result (standing_of stage.new ≡ with_more_lines lines.now (standing_of stage.old)) }
{
    for line in lines {
        match stage.add_line(alloc, line.rows.as_slice()) {
            Ok(()) => {}
            Err(e) => return Err(e),
        }
    }
    Ok(())
}

/// A stage with the files and the lines of a request, and with spare room for these numbers of calls and bytes.
pub fn laid_out(
    alloc: Global,
    request: &HeldRequest,
    calls: u64,
    bytes: u64,
) -> Result<MemoryStage, NoRoom>
    ensures stands { IfOk result (λ s. standing_of s ≡ standing_before (asked_by request.now)) }
{
    let mut stage = MemoryStage::new(alloc, calls, bytes)?;
    add_files(&mut stage, request.files.as_slice())?;
    add_lines(alloc, &mut stage, request.lines.as_slice())?;
    Ok(stage)
}

/// The file that the third word names, where there is one. None where the stage has no room for the call.
pub fn file_left(
    alloc: Global,
    stage: &mut MemoryStage,
    words: &[String],
) -> Result<Option<Option<Vec<u8>>>, NoRoom>
    ensures left { IfOk result (λ r. IfSome r (λ left.
        option_map (λ v. v.items) left ≡ file_left (map string_bytes words.now) (standing_of stage.old))) }
    ensures still { standing_of stage.new ≡ standing_of stage.old }
{
    let Some(name) = words.get(2) else {
        return Ok(Some(None));
    };
    match stage.load(alloc, name.as_str(), usize::MAX) {
        Ok(bytes) => Ok(Some(Some(bytes))),
        Err(LoadRefusal::Absent) => Ok(Some(None)),
        Err(LoadRefusal::Failed) => Ok(None),
        Err(LoadRefusal::Memory) => Err(NoRoom),
    }
}
