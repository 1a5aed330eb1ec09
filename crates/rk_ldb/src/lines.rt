ghost use Rattle.rk_ldb.specs.Stops.{TookLine, OutputStops};

use crate::stop::Stop;
use rk_disk::Sink;

/// The line that answers words that spell no command.
pub(crate) const USAGE_LINE: &[u8] =
    b"usage: scan get families manifest_dump dump_wal check repair sst drill\n";

/// The line that ends the output after a fault of the disk.
pub(crate) const DISK_FAULT_LINE: &[u8] = b"fault: disk\n";

/// The line that ends the output after want of memory.
pub(crate) const MEMORY_FAULT_LINE: &[u8] = b"fault: memory\n";

/// Writes one line by one `write`.
pub(crate) fn write_line<S: Sink>(line: &[u8], out: &mut S) -> Result<(), Stop>
    ensures line { TookLine (S.taken out.old) (S.taken out.new) line.now result }
    ensures counts { OutputStops (S.faults out.old) (S.faults out.new) result }
{
    out.write(line)?;
    Ok(())
}
