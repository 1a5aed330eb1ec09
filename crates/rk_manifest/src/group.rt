//! The edits of a group, which are kept until the group is whole.
ghost use Rattle.std.specs.Prelude.{◌≡◌, true, false, [], ◌∷◌, IfOk};
ghost use Rattle.rk_bytes.specs.Model.VersionEdit.{group_in};
ghost use Rattle.rk_bytes.specs.Model.Manifest.{stated};
ghost use Rattle.rk_log.specs.Items.{piece_bytes};
ghost use Rattle.rk_manifest.specs.Fronts.{stated_in, admits, joined, IsFrontOf};

use crate::{EditWhy, ManifestFault, Unit};
use rk_bytes::{Bytes, Memory, Seq};
use rk_edit::{EditFault, EditView, Field};
use rk_log::Piece;
use std::alloc::Global;
use std::mem;

/// The first edits of a group of which more come, or none.
#[derive(Debug, Drop)]
pub(crate) struct Begun<'a> {
    alloc: Global,
    edits: Seq<Piece<'a>>,
    /// How many more come: 0 where no group has begun.
    left: u32,
    ghost front: { IsFrontOf left edits },
}

impl<'a> Begun<'a> {
    ghost use Rattle.rk_manifest.specs.Fronts.{edits_in};
    ghost use Rattle.rk_manifest.specs.Groups.{TakesEdit};

    /// No group has begun. Takes no memory yet.
    pub(crate) fn new(alloc: Global) -> Begun<'a>
        ensures { result.edits ≡ [] }
    {
        Begun {
            alloc,
            edits: Seq::new(alloc),
            left: 0,
        }
    }

    /// How many more edits of its group the next edit states to come, or `None` where it is a unit by
    /// itself, or its fault, which is one of the unit with this number.
    pub(crate) fn join(&self, edit: &[u8], unit: u64) -> Result<Option<u32>, ManifestFault>
        ensures { result ≡ joined self.now.left unit edit.now }
    {
        match read_group(edit) {
            Err(why) => Err(bad_edit(unit, why)),
            Ok(stated) => {
                if self.admits(stated) {
                    Ok(stated)
                } else {
                    Err(ManifestFault::BadGroup { unit })
                }
            }
        }
    }

    /// Whether an edit that states this may come next.
    fn admits(&self, stated: Option<u32>) -> bool
        ensures { result ≡ admits self.now.left stated }
    {
        self.left == 0 || stated == Some(self.left - 1)
    }

    /// Takes the next edit, which states this of its group, and gives the unit that it ends, if it ends
    /// one.
    pub(crate) fn take(
        &mut self,
        edit: Piece<'a>,
        stated: Option<u32>,
    ) -> Result<Option<Unit<'a>>, Memory>
        requires admits { admits self.old.left stated ≡ true }
        requires states { stated_in (piece_bytes edit) ≡ Ok stated }
        ensures { TakesEdit (edits_in self.old.edits) (piece_bytes edit.entry) result (edits_in self.new.edits) }
    {
        match stated {
            None => Ok(Some(single(self.alloc, edit)?)),
            Some(left) => self.add(edit, left),
        }
    }

    /// Takes the next edit of a group, of which so many more come behind it, and gives the unit of the
    /// group once it is whole.
    fn add(&mut self, edit: Piece<'a>, left: u32) -> Result<Option<Unit<'a>>, Memory>
        requires admits { admits self.old.left (Some left) ≡ true }
        requires states { stated_in (piece_bytes edit) ≡ Ok (Some left) }
        ensures { TakesEdit (edits_in self.old.edits) (piece_bytes edit.entry) result (edits_in self.new.edits) }
    {
        self.edits.push(edit)?;
        self.left = left;
        if left > 0 {
            return Ok(None);
        }
        let pieces = mem::replace(&mut self.edits, Seq::new(self.alloc));
        Ok(Some(Unit {
            pieces,
            group: true,
        }))
    }
}

impl Begun<'static> {
    ghost use Rattle.rk_manifest.specs.Fronts.{edits_in};
    ghost use Rattle.rk_manifest.specs.Groups.{TakesEdit};

    /// Does what `take` does with an edit that is lent for a shorter time: one of a group is copied.
    pub(crate) fn take_lent<'b>(
        &mut self,
        edit: Piece<'b>,
        stated: Option<u32>,
    ) -> Result<Option<Unit<'b>>, Memory>
        requires admits { admits self.old.left stated ≡ true }
        requires states { stated_in (piece_bytes edit) ≡ Ok stated }
        ensures { TakesEdit (edits_in self.old.edits) (piece_bytes edit.entry) result (edits_in self.new.edits) }
    {
        match stated {
            None => Ok(Some(single(self.alloc, edit)?)),
            Some(left) => {
                let edit = owned(self.alloc, edit)?;
                self.add(edit, left)
            }
        }
    }
}

/// The unit of an edit by itself.
fn single(alloc: Global, edit: Piece<'_>) -> Result<Unit<'_>, Memory>
    ensures { IfOk result (λ unit. unit ≡ record { pieces = edit.entry ∷ []; group = false }) }
{
    let mut pieces = Seq::new(alloc);
    pieces.push(edit)?;
    Ok(Unit {
        pieces,
        group: false,
    })
}

/// The same payload in memory of its own.
fn owned(alloc: Global, edit: Piece<'_>) -> Result<Piece<'static>, Memory>
    ensures { IfOk result (λ own. piece_bytes own ≡ piece_bytes edit.entry) }
{
    match edit {
        Piece::Whole(bytes) => Ok(Piece::Joined(Bytes::copy_of(alloc, bytes)?)),
        Piece::Joined(bytes) => Ok(Piece::Joined(bytes)),
    }
}

/// What an edit states last of its group: how many more edits come, or `None` where it states no group.
/// Or how it doesn't read.
fn read_group(edit: &[u8]) -> Result<Option<u32>, EditFault>
    ensures { result ≡ stated_in edit.now }
{
    let mut fields = EditView::read(edit)?;
    Ok(last_group(&mut fields))
}

/// What the fields state last of their group.
fn last_group(fields: &mut EditView<'_>) -> Option<u32>
    ensures { result ≡ stated group_in fields.old }
{
    let mut left = None;
    while let Some(field) = fields.next_field() {
        if let Field::Group(more) = field {
            left = Some(more);
        }
    }
    left
}

/// The fault of an edit of this unit that doesn't read.
fn bad_edit(unit: u64, why: EditFault) -> ManifestFault
    ensures { result ≡ ManifestFault.BadEdit unit (EditWhy.Read why) }
{
    ManifestFault::BadEdit {
        unit,
        why: EditWhy::Read(why),
    }
}
