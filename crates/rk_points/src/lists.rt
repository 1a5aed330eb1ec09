//! The files that units add.
ghost use Rattle.std.specs.Prelude.{◌≡◌, ◌++◌, map, flat_map, filter_map, IsOk, IfOk};
ghost use Rattle.std.specs.List.{All};
ghost use Rattle.rk_log.specs.Items.{piece_bytes};
ghost use Rattle.rk_bytes.specs.Model.VersionEdit.{edit_fields};
ghost use Rattle.rk_bytes.specs.Model.BestEfforts.{listed};
ghost use Rattle.rk_version.specs.Units.{edits_of, meaning};
ghost use Rattle.rk_points.specs.Lists.{files_in};

use rk_bytes::{Memory, Seq};
use rk_edit::{EditView, Field};
use rk_log::Piece;
use rk_version::{FileMeta, Unit, meta_of};
use std::alloc::Global;

/// The files that the units add, in order. `Memory` comes only where memory runs out.
pub fn listed(alloc: Global, units: &[Unit<'_>]) -> Result<Seq<FileMeta>, Memory>
    requires { All (λ unit. All (λ piece. IsOk (edit_fields (piece_bytes piece))) unit.pieces) units.now }
    ensures { IfOk result (λ files. files ≡ listed (map meaning units.now)) }
{
    let mut files = Seq::new(alloc);
    for unit in units {
        list_pieces(alloc, &mut files, unit.pieces.as_slice())?;
    }
    Ok(files)
}

/// Puts the files that edits add behind the others.
fn list_pieces(alloc: Global, files: &mut Seq<FileMeta>, pieces: &[Piece<'_>]) -> Result<(), Memory>
    requires { All (λ piece. IsOk (edit_fields (piece_bytes piece))) pieces.now }
    ensures { IfOk result (λ done. files.new ≡ files.old ++ flat_map files_in (edits_of pieces.now)) }
{
    for piece in pieces {
        match EditView::read(piece.as_slice()) {
            Ok(view) => list_fields(alloc, files, view)?,
            Err(_) => unreachable!(),
        }
    }
    Ok(())
}

/// Puts the files that an edit adds behind the others.
fn list_fields(
    alloc: Global,
    files: &mut Seq<FileMeta>,
    mut view: EditView<'_>,
) -> Result<(), Memory>
    ensures { IfOk result (λ done. files.new ≡ files.old ++ files_in view.entry) }
{
    while let Some(field) = view.next_field() {
        if let Field::AddFile(file) = field {
            files.push(meta_of(alloc, file)?)?;
        }
    }
    Ok(())
}
