ghost use Rattle.std.specs.Prelude.{◌≡◌, ◌≤◌, ◌-◌, ◌%◌, ◌<◌, ℕ, List, [], ◌∷◌, ◌++◌, length, OnOk, OnErr};
ghost use Rattle.rk_bytes.specs.Model.LogItems.{log_items};
ghost use Rattle.rk_bytes.specs.Model.WrittenLogs.{written_header_len, record_fragments, record_pieces, left_in_block, written_record, written_log};
ghost use Rattle.rk_log.specs.Writing.{Extends, part_type, padding, SameLow, GivesBack};

use crate::block::BLOCK_LEN;
use crate::header::{HEADER_LEN, NUMBERED_HEADER_LEN};
use crate::written::{append, write_fragment};
use rk_bytes::{Bytes, Memory};
use std::alloc::Global;
use std::marker::Model;

/// Zeros for the end of a block in which a header has no place.
const ZEROS: [u8; NUMBERED_HEADER_LEN] = [0; NUMBERED_HEADER_LEN];

/// Writes the records of a log. Contracts see its number, if its headers hold one, and its bytes so far.
#[derive(Debug, Drop)]
pub struct LogWriter {
    number: Option<u64>,
    out: Vec<u8>,
}

impl Model for LogWriter {
    ghost use Rattle.rk_log.specs.Writing.{Writing};

    ghost Value = { Writing };

    ghost view = { λ w. record { number = w.number; bytes = w.out.items } };
}

impl LogWriter {
    /// An empty log: with recyclable headers, which hold the number's low 32 bits, or with legacy ones.
    /// Takes no memory yet.
    pub fn new(alloc: Global, number: Option<u64>) -> LogWriter
        ensures value { result ≡ record { number = number; bytes = [] } }
        ensures log { result.bytes ≡ written_log number [] }
    {
        LogWriter {
            number,
            out: Vec::new(alloc),
        }
    }

    /// Puts a record at the end, or where memory runs out changes nothing.
    pub fn add(&mut self, payload: &[u8]) -> Result<(), Memory>
        ensures ok { OnOk result (self.new ≡ record self.old { bytes = self.old.bytes ++ written_record self.old.number (length self.old.bytes) payload.now }) }
        ensures log { OnOk result ((payloads : List (List ℕ)) → self.old.bytes ≡ written_log self.old.number payloads → self.new.bytes ≡ written_log self.old.number (payloads ++ payload.now ∷ [])) }
        ensures err { OnErr result (self.new ≡ self.old) }
    {
        let len = self.out.len();
        let written = write_record(&mut self.out, self.number, payload);
        if written.is_err() {
            self.out.truncate(len);
        }
        written
    }

    /// The log's bytes. Takes no memory.
    pub fn finish(self) -> Bytes
        ensures bytes { result ≡ self.bytes }
        ensures reads { (reader : ℕ) (payloads : List (List ℕ)) → SameLow reader self.number → self.bytes ≡ written_log self.number payloads → GivesBack payloads (log_items reader result) }
    {
        let LogWriter { number: _, out } = self;
        Bytes::from_vec(out)
    }
}

/// The length of a header.
fn header_len(number: Option<u64>) -> usize
    ensures { result ≡ written_header_len number }
{
    match number {
        None => HEADER_LEN,
        Some(_) => NUMBERED_HEADER_LEN,
    }
}

/// The legacy type of a fragment, by whether it begins its record and whether it ends it.
fn part_type(begins: bool, ends: bool) -> u8
    ensures value { result ≡ part_type begins ends }
    ensures small { result ≤ 4 }
{
    match (begins, ends) {
        (true, true) => 1,
        (true, false) => 2,
        (false, false) => 3,
        (false, true) => 4,
    }
}

/// Puts a record at the end of the log.
fn write_record(out: &mut Vec<u8>, number: Option<u64>, payload: &[u8]) -> Result<(), Memory>
    ensures { Extends out.old.items (written_record number (length out.old.items) payload.now) result out.new.items }
{
    fill_block(out, number)?;
    write_parts(out, number, payload)
}

/// Fills the block with zeros, where a header has no place in it any more.
fn fill_block(out: &mut Vec<u8>, number: Option<u64>) -> Result<(), Memory>
    ensures { Extends out.old.items (padding number (length out.old.items)) result out.new.items }
{
    let left = BLOCK_LEN - out.len() % BLOCK_LEN;
    if left < header_len(number) {
        append(out, &ZEROS[..left])
    } else {
        Ok(())
    }
}

/// Puts the fragments of a record at the end of the log, where a header has place.
fn write_parts(out: &mut Vec<u8>, number: Option<u64>, payload: &[u8]) -> Result<(), Memory>
    requires { written_header_len number ≤ left_in_block (length out.old.items) }
    ensures { Extends out.old.items (record_fragments number (record_pieces number (left_in_block (length out.old.items)) payload.now)) result out.new.items }
{
    let mut rest = payload;
    let mut begins = true;
    loop {
        let room = BLOCK_LEN - out.len() % BLOCK_LEN - header_len(number);
        if rest.len() <= room {
            return write_fragment(out, number, part_type(begins, true), rest);
        }
        let (part, later) = rest.split_at(room);
        write_fragment(out, number, part_type(begins, false), part)?;
        rest = later;
        begins = false;
    }
}
