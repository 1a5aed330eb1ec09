//! The ways of opening.
ghost use Rattle.std.specs.Prelude.{IfSome};
ghost use Rattle.rk_bytes.specs.declared.model.command.How.TheVariants.{Best};
ghost use Rattle.rk_bytes.specs.Model.DiskImages.{IsLeft, Counts, contents_told};
ghost use Rattle.rk_bytes.specs.Model.Output.{state_of};
ghost use Rattle.rk_open.specs.Answers.{AnswersBy, open_failed};

use rk_bytes::model::How;
use rk_disk::Disk;
use rk_open::{OpenErr, open_best, open_db};
use rk_view::State;
use std::alloc::Global;

/// The state that the directory is opened to in this way, or why it isn't.
pub(crate) fn open_state<D: Disk>(alloc: Global, disk: &mut D, how: How) -> Result<State, OpenErr>
    ensures state { IfSome (contents_told (D.told disk.old)) (λ d. AnswersBy (λ kept. kept.state) (state_of how d) result) }
    ensures faults { Counts (open_failed result) (D.faults disk.old) (D.faults disk.new) }
    ensures left { IsLeft (D.told disk.old) (D.told disk.new) }
{
    match how {
        How::Normal(mode) => open_db(alloc, disk, mode),
        How::Best => open_best_state(alloc, disk),
    }
}

/// The state that the directory is opened to as far as whole tables go.
fn open_best_state<D: Disk>(alloc: Global, disk: &mut D) -> Result<State, OpenErr>
    ensures state { IfSome (contents_told (D.told disk.old)) (λ d. AnswersBy (λ kept. kept.state) (state_of Best d) result) }
    ensures faults { Counts (open_failed result) (D.faults disk.old) (D.faults disk.new) }
    ensures left { IsLeft (D.told disk.old) (D.told disk.new) }
{
    match open_best(alloc, disk) {
        Ok(best) => Ok(best.state),
        Err(why) => Err(why),
    }
}
