ghost use Rattle.std.specs.Prelude.{◌≡◌, ℕ, ◌+◌, ◌^◌, ◌<◌, ◌≤◌, ◌⊎◌, ◌∷◌, [], Ok, Some, IfOk, OnOk, IsErrOf, IfSome, IsNone, length, take};
ghost use Rattle.rk_bytes.specs.Model.DiskImages.{IsLeft, Rose, contents_told};
ghost use Rattle.rk_bytes.specs.Model.Lines.{usage_line, disk_fault_line, memory_fault_line};
ghost use Rattle.rk_bytes.specs.Model.Output.{text, Took, TookLines, TookFront};
ghost use Rattle.rk_ldb.specs.Answers.{IsAnswer, IsGetAnswer, EndsInFault, TookPart};
ghost use Rattle.rk_ldb.specs.Ends.{EndsAs};
ghost use Rattle.rk_ldb.specs.Built.{built, built_command, IsGet, output_of, output_so_far};
ghost use Rattle.rk_ldb.specs.Commands.{told, IsSmall};
ghost use Rattle.rk_ldb.specs.Stops.{TookUpTo, DiskCounts, SinkCounts, OutputStops};

use crate::check::check;
use crate::command::{Command, read_command};
use crate::drill::drill;
use crate::families::families;
use crate::get::get;
use crate::lines::{DISK_FAULT_LINE, MEMORY_FAULT_LINE, USAGE_LINE, write_line};
use crate::log_dump::dump_wal;
use crate::manifest_dump::manifest_dump;
use crate::scan::scan;
use crate::sst::sst;
use crate::stop::Stop;
use rk_bytes::Text;
use rk_bytes::model::Status;
use rk_disk::{Disk, Sink, SinkErr};
use std::alloc::Global;

/// Runs the command that the words spell over the files of the disk, and writes its lines, each by
/// one `write` of the output. After a fault of the disk or want of memory the last line names it. At
/// its end the output hands on what it holds back, once.
pub fn run<D: Disk, S: Sink>(alloc: Global, words: &[Text], disk: &mut D, out: &mut S) -> Status
    // An answer is that of the definition, in full, and nothing else was taken.
    ensures answer { IsAnswer result → IfSome (contents_told (D.told disk.old)) (λ d.
        Took (S.taken out.old) (S.taken out.new) (text (output_so_far words.now d)) × (result ≡ (output_so_far words.now d).status)) }

    // The words alone decide whether the answer is the usage line, whatever the disk tells.
    ensures usage { result ≡ Status.Usage → IsNone (built_command words.now) × Took (S.taken out.old) (S.taken out.new) usage_line }
    ensures no_usage { IsNone (built_command words.now) → (result ≡ Status.Usage) ⊎ ((result ≡ Status.SinkFault) ⊎ (result ≡ Status.Memory)) }

    // Only a `get` finds nothing. Where the contents are told, nothing is shown of its key.
    ensures not_found { result ≡ Status.NotFound → IsGet (built_command words.now) }

    // An answer hides no fault. A fault has a cause, and the first one counts.
    ensures no_fault { IsAnswer result → (D.faults disk.new ≡ D.faults disk.old) × (S.faults out.new ≡ S.faults out.old) }
    ensures disk_fault { result ≡ Status.DiskFault → Rose (D.faults disk.old) (D.faults disk.new) }
    ensures sink_fault { result ≡ Status.SinkFault → Rose (S.faults out.old) (S.faults out.new) × (D.faults disk.new ≡ D.faults disk.old) }

    // After a fault of the disk whole lines were taken, and want of memory left out the fault's line.
    ensures memory { result ≡ Status.Memory → (D.faults disk.new ≡ D.faults disk.old) ⊎ IfSome (contents_told (D.told disk.old)) (λ d.
        TookLines (S.taken out.old) (S.taken out.new) (output_so_far words.now d).lines []) }

    // What was taken up to a fault.
    ensures disk_fault_text { result ≡ Status.DiskFault → IfSome (contents_told (D.told disk.old)) (λ d.
        EndsInFault (S.taken out.old) (S.taken out.new) (output_so_far words.now d).lines disk_fault_line (λ len. Rose (S.faults out.old) (S.faults out.new))) }
    ensures memory_text { result ≡ Status.Memory → IfSome (contents_told (D.told disk.old)) (λ d.
        EndsInFault (S.taken out.old) (S.taken out.new) (output_so_far words.now d).lines memory_fault_line (λ len. (len ≡ 0) ⊎ Rose (S.faults out.old) (S.faults out.new))) }
    ensures sink_fault_text { result ≡ Status.SinkFault → IfSome (contents_told (D.told disk.old)) (λ d.
        TookFront (S.taken out.old) (S.taken out.new) (text (output_so_far words.now d))) }

    ensures left { IsLeft (D.told disk.old) (D.told disk.new) }
{
    match answer(alloc, words, disk, out) {
        Ok(status) => end_after_answer(status, out),
        Err(Stop::Disk) => end_after_disk_fault(out),
        Err(Stop::Sink) => end_after_output_fault(out),
        Err(Stop::Memory) => end_after_want_of_memory(out),
    }
}

/// Writes the lines of the words' command.
fn answer<D: Disk, S: Sink>(
    alloc: Global,
    words: &[Text],
    disk: &mut D,
    out: &mut S,
) -> Result<Status, Stop>
    ensures lines { IfSome (contents_told (D.told disk.old)) (λ d. TookUpTo (S.taken out.old) (S.taken out.new) (output_so_far words.now d).lines result) }
    ensures status { IfSome (contents_told (D.told disk.old)) (λ d. IfOk result (λ status. status ≡ (output_so_far words.now d).status)) }
    ensures usage { IfOk result (λ status. IsGetAnswer status ⊎ ((status ≡ Status.Usage) × (IsNone (built_command words.now) × Took (S.taken out.old) (S.taken out.new) usage_line))) }
    ensures not_found { IfOk result (λ status. status ≡ Status.NotFound → IsGet (built_command words.now)) }
    ensures no_usage { IsNone (built_command words.now) → (result ≡ Ok Status.Usage) ⊎ (IsErrOf result Stop.Sink ⊎ IsErrOf result Stop.Memory) }
    ensures disk_count { DiskCounts (D.faults disk.old) (D.faults disk.new) result }
    ensures output_count { SinkCounts (S.faults out.old) (S.faults out.new) result }
    ensures left { IsLeft (D.told disk.old) (D.told disk.new) }
{
    match read_command(words) {
        Some(command) => write_answer(alloc, command, disk, out),
        None => answer_with_usage(out),
    }
}

/// Writes the lines of a command, or the usage line for one that the program doesn't have.
fn write_answer<D: Disk, S: Sink>(
    alloc: Global,
    command: Command<'_>,
    disk: &mut D,
    out: &mut S,
) -> Result<Status, Stop>
    requires { IsSmall command }
    ensures lines { IfSome (contents_told (D.told disk.old)) (λ d. TookUpTo (S.taken out.old) (S.taken out.new) (output_of (told command.entry) d).lines result) }
    ensures status { IfSome (contents_told (D.told disk.old)) (λ d. IfOk result (λ status. status ≡ (output_of (told command.entry) d).status)) }
    ensures ends { EndsAs (built (Some (told command.entry))) (S.taken out.old) (S.taken out.new) result }
    ensures disk_count { DiskCounts (D.faults disk.old) (D.faults disk.new) result }
    ensures output_count { SinkCounts (S.faults out.old) (S.faults out.new) result }
    ensures left { IsLeft (D.told disk.old) (D.told disk.new) }
{
    match command {
        Command::Scan {
            family,
            how,
            from,
            to,
            hex,
        } => scan(alloc, family, how, from, to, hex, disk, out),
        Command::Get {
            key,
            family,
            how,
            hex,
        } => get(alloc, key, family, how, hex, disk, out),
        Command::Families => families(alloc, disk, out),
        Command::ManifestDump { hex } => manifest_dump(alloc, hex, disk, out),
        Command::DumpWal { number, hex } => dump_wal(alloc, number, hex, disk, out),
        Command::Check { how } => check(alloc, how, disk, out),
        Command::Repair => answer_with_usage(out),
        Command::Sst { number, part, hex } => sst(alloc, number, part, hex, disk, out),
        Command::Drill { number } => drill(alloc, number, out),
    }
}

/// Writes the line that answers words which spell no command.
fn answer_with_usage<S: Sink>(out: &mut S) -> Result<Status, Stop>
    ensures lines { TookUpTo (S.taken out.old) (S.taken out.new) (usage_line ∷ []) result }
    ensures line { OnOk result (Took (S.taken out.old) (S.taken out.new) usage_line) }
    ensures status { IfOk result (λ status. status ≡ Status.Usage) }
    ensures counts { OutputStops (S.faults out.old) (S.faults out.new) result }
{
    write_line(USAGE_LINE, out)?;
    Ok(Status::Usage)
}

/// Hands on what the output holds back after an answer, which stays where that succeeds.
fn end_after_answer<S: Sink>(status: Status, out: &mut S) -> Status
    requires { IsAnswer status }
    ensures answer { IsAnswer result → (result ≡ status) × (S.faults out.new ≡ S.faults out.old) }
    ensures failed { result ≡ Status.SinkFault → Rose (S.faults out.old) (S.faults out.new) }
    ensures only { (result ≡ status) ⊎ ((result ≡ Status.SinkFault) ⊎ (result ≡ Status.Memory)) }
    ensures taken { S.taken out.new ≡ S.taken out.old }
{
    match out.flush() {
        Ok(()) => status,
        Err(SinkErr::Failed) => Status::SinkFault,
        Err(SinkErr::Memory) => Status::Memory,
    }
}

/// Writes the line that ends the output after a fault of the disk, and hands it on.
fn end_after_disk_fault<S: Sink>(out: &mut S) -> Status
    ensures status { (result ≡ Status.DiskFault) ⊎ (result ≡ Status.Memory) }
    ensures line { result ≡ Status.DiskFault → TookPart (S.taken out.old) (S.taken out.new) disk_fault_line (λ len. Rose (S.faults out.old) (S.faults out.new)) }
    ensures memory { result ≡ Status.Memory → S.taken out.new ≡ S.taken out.old }
{
    let written = out.write(DISK_FAULT_LINE);
    let _ = out.flush();
    match written {
        Ok(()) => Status::DiskFault,
        Err(SinkErr::Failed) => Status::DiskFault,
        Err(SinkErr::Memory) => Status::Memory,
    }
}

/// Hands on what an output that failed still holds.
fn end_after_output_fault<S: Sink>(out: &mut S) -> Status
    ensures status { result ≡ Status.SinkFault }
    ensures faults { S.faults out.old ≤ S.faults out.new }
    ensures taken { S.taken out.new ≡ S.taken out.old }
{
    let _ = out.flush();
    Status::SinkFault
}

/// Writes the line that ends the output after want of memory, where the output can still take it, and
/// hands it on. `run` does so by itself: this is for a program that had no memory to call it.
pub fn end_after_want_of_memory<S: Sink>(out: &mut S) -> Status
    ensures status { result ≡ Status.Memory }
    // Nothing of the line is taken, or all of it, or a front of it where the output failed.
    ensures line { TookPart (S.taken out.old) (S.taken out.new) memory_fault_line (λ len. (len ≡ 0) ⊎ Rose (S.faults out.old) (S.faults out.new)) }
{
    let _ = out.write(MEMORY_FAULT_LINE);
    let _ = out.flush();
    Status::Memory
}
