//! Why a command is refused, and the line that says so.
ghost use Rattle.std.specs.Prelude.{◌≡◌, ◌∷◌, [], IfOk, OnOk};
ghost use Rattle.rk_bytes.specs.Model.Lines.{refusal_line, no_family_words};
ghost use Rattle.rk_ldb.specs.Refusals.{words_of, open_stop};
ghost use Rattle.rk_ldb.specs.Stops.{TookUpTo, OutputStops};

use crate::lines::write_line;
use crate::stop::Stop;
use rk_bytes::Memory;
use rk_bytes::model::Status;
use rk_disk::Sink;
use rk_open::OpenErr;
use rk_text::Line;
use std::alloc::Global;

/// Why a command is refused.
#[derive(Clone, Copy, Debug, PartialEq, Eq)]
pub(crate) enum Refusal {
    /// The log with this number isn't there.
    NoLog(u64),
    /// The table with this number isn't there.
    NoTable(u64),
    /// The database isn't opened.
    Open(OpenErr),
}

/// The refusal of a database that isn't opened, or the stop that a fault of the disk or want of memory is.
pub(crate) fn refusal_of(why: OpenErr) -> Result<Refusal, Stop>
    ensures { result ≡ open_stop why }
{
    match why {
        OpenErr::DiskFault => Err(Stop::Disk),
        OpenErr::Memory => Err(Stop::Memory),
        _ => Ok(Refusal::Open(why)),
    }
}

/// Writes the line that refuses.
pub(crate) fn refuse<S: Sink>(alloc: Global, why: Refusal, out: &mut S) -> Result<Status, Stop>
    ensures lines { TookUpTo (S.taken out.old) (S.taken out.new) (refusal_line (words_of why) ∷ []) result }
    ensures status { IfOk result (λ status. status ≡ Status.Refused) }
    ensures counts { OutputStops (S.faults out.old) (S.faults out.new) result }
{
    let mut line = Line::new(alloc);
    set_refusal(&mut line, why)?;
    write_line(line.as_slice(), out)?;
    Ok(Status::Refused)
}

/// Writes the line that refuses where no live family has this name.
pub(crate) fn refuse_family<S: Sink>(
    alloc: Global,
    name: &[u8],
    out: &mut S,
) -> Result<Status, Stop>
    ensures lines { TookUpTo (S.taken out.old) (S.taken out.new) (refusal_line (no_family_words name.now) ∷ []) result }
    ensures status { IfOk result (λ status. status ≡ Status.Refused) }
    ensures counts { OutputStops (S.faults out.old) (S.faults out.new) result }
{
    let mut line = Line::new(alloc);
    line.set_no_family(name)?;
    write_line(line.as_slice(), out)?;
    Ok(Status::Refused)
}

/// Makes this the line that refuses.
fn set_refusal(line: &mut Line, why: Refusal) -> Result<(), Memory>
    ensures { OnOk result (line.new ≡ refusal_line (words_of why)) }
{
    match why {
        Refusal::NoLog(number) => line.set_no_log(number),
        Refusal::NoTable(number) => line.set_no_table(number),
        Refusal::Open(why) => line.set_not_opened(why),
    }
}
