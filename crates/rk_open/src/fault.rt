ghost use Rattle.std.specs.Prelude.{◌≡◌};
ghost use Rattle.rk_open.specs.Answers.{open_fault};

use crate::OpenErr;
use rk_disk::DiskErr;

/// Why nothing is opened where a call of the disk gives nothing.
pub(crate) fn not_read(why: DiskErr) -> OpenErr
    ensures { result ≡ open_fault why }
{
    match why {
        DiskErr::Failed => OpenErr::DiskFault,
        DiskErr::Memory => OpenErr::Memory,
    }
}
