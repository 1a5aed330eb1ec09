//! The commands, and the words that spell them.
ghost use Rattle.std.specs.Prelude.{◌≡◌, ◌&&◌, nat_le};
ghost use Rattle.std.specs.Option.{option_map};
ghost use Rattle.rk_bytes.specs.Model.Grammar.{command_of, scan_of, get_of, dump_wal_of, check_of, sst_of, drill_of, alone, families, check, repair, drill};
ghost use Rattle.rk_ldb.specs.Built.{manifest_dump_of, form_of};
ghost use Rattle.rk_ldb.specs.Commands.{told};

use crate::keys::KeyWord;
use crate::words::{read_bound, read_family, read_hex, read_how, read_key, read_number, read_part};
use rk_bytes::Text;
use rk_bytes::model::{How, SstPart};

/// What is asked for. Bytes are shown in hexadecimal, or between quotation marks. Names and keys are lent
/// from the words.
#[derive(Clone, Copy, Debug, PartialEq, Eq)]
pub enum Command<'a> {
    /// The rows of a family, the default one where none is named, from one key on, up to another.
    Scan {
        family: Option<&'a [u8]>,
        how: How,
        from: Option<KeyWord<'a>>,
        to: Option<KeyWord<'a>>,
        hex: bool,
    },
    /// What is shown of one key of a family.
    Get {
        key: KeyWord<'a>,
        family: Option<&'a [u8]>,
        how: How,
        hex: bool,
    },
    /// The families of the last version.
    Families,
    /// The records of the manifest that `CURRENT` names, and what stands in them.
    ManifestDump {
        hex: bool,
    },
    /// The records of the log with this number, and what stands in them.
    DumpWal {
        number: u64,
        hex: bool,
    },
    /// The counts of what is opened.
    Check {
        how: How,
    },
    /// The database as it can be salvaged.
    Repair,
    /// What is asked of the table with this number.
    Sst {
        number: u64,
        part: SstPart,
        hex: bool,
    },
    /// What each way of opening makes of a damaged database of so many records.
    Drill {
        number: u64,
    },
}

/// The command that the words spell, or `None` where they are in no command's grammar.
pub fn read_command<'a>(words: &'a [Text]) -> Option<Command<'a>>
    ensures { option_map told result ≡ command_of words.now }
{
    let (verb, arguments) = words.split_first()?;
    match verb.as_str() {
        "scan" => read_scan(arguments),
        "get" => read_get(arguments),
        "families" => read_families(arguments),
        "manifest_dump" => read_manifest_dump(arguments),
        "dump_wal" => read_dump_wal(arguments),
        "check" => read_check(arguments),
        "repair" => read_repair(arguments),
        "sst" => read_sst(arguments),
        "drill" => read_drill(arguments),
        _ => None,
    }
}

/// The command of the words after `scan`.
fn read_scan<'a>(arguments: &'a [Text]) -> Option<Command<'a>>
    ensures { option_map told result ≡ scan_of arguments.now }
{
    let (family, behind_family) = read_family(arguments);
    let (how, behind_how) = read_how(behind_family);
    let (from, behind_from) = read_bound(b"--from=", behind_how);
    let (to, behind_to) = read_bound(b"--to=", behind_from);
    let hex = read_hex(behind_to)?;
    Some(Command::Scan {
        family,
        how,
        from,
        to,
        hex,
    })
}

/// The command of the words after `get`, the first of which is the key.
fn read_get<'a>(arguments: &'a [Text]) -> Option<Command<'a>>
    ensures { option_map told result ≡ get_of arguments.now }
{
    let (word, options) = arguments.split_first()?;
    let key = read_key(word.as_str().as_bytes())?;
    let (family, behind_family) = read_family(options);
    let (how, behind_how) = read_how(behind_family);
    let hex = read_hex(behind_how)?;
    Some(Command::Get {
        key,
        family,
        how,
        hex,
    })
}

/// The command of the words after `families`, of which there are none.
fn read_families<'a>(arguments: &'a [Text]) -> Option<Command<'a>>
    ensures { option_map told result ≡ alone families arguments.now }
{
    match arguments {
        [] => Some(Command::Families),
        _ => None,
    }
}

/// The command of the words after `manifest_dump`.
fn read_manifest_dump<'a>(arguments: &'a [Text]) -> Option<Command<'a>>
    ensures { option_map told result ≡ manifest_dump_of arguments.now }
{
    let hex = read_hex(arguments)?;
    Some(Command::ManifestDump { hex })
}

/// The command of the words after `dump_wal`.
fn read_dump_wal<'a>(arguments: &'a [Text]) -> Option<Command<'a>>
    ensures { option_map told result ≡ dump_wal_of arguments.now }
{
    let (number, options) = arguments.split_first()?;
    let number = read_number(number.as_str())?;
    let hex = read_hex(options)?;
    Some(Command::DumpWal { number, hex })
}

/// The command of the words after `check`.
fn read_check<'a>(arguments: &'a [Text]) -> Option<Command<'a>>
    ensures { option_map told result ≡ check_of arguments.now }
{
    let (how, rest) = read_how(arguments);
    read_check_alone(how, rest)
}

/// The check of what is opened so, where no word is left.
fn read_check_alone<'a>(how: How, rest: &'a [Text]) -> Option<Command<'a>>
    ensures { option_map told result ≡ alone (check how) rest.now }
{
    match rest {
        [] => Some(Command::Check { how }),
        _ => None,
    }
}

/// The command of the words after `repair`, of which there are none.
fn read_repair<'a>(arguments: &'a [Text]) -> Option<Command<'a>>
    ensures { option_map told result ≡ alone repair arguments.now }
{
    match arguments {
        [] => Some(Command::Repair),
        _ => None,
    }
}

/// The command of the words after `sst`.
fn read_sst<'a>(arguments: &'a [Text]) -> Option<Command<'a>>
    ensures { option_map told result ≡ sst_of arguments.now }
{
    let (number, rest) = arguments.split_first()?;
    let (part, options) = rest.split_first()?;
    let number = read_number(number.as_str())?;
    let part = read_part(part.as_str())?;
    let hex = read_form(part, options)?;
    Some(Command::Sst { number, part, hex })
}

/// Whether the last words ask for hexadecimal, where this is asked of a table. A check takes none.
fn read_form(part: SstPart, words: &[Text]) -> Option<bool>
    ensures { result ≡ form_of part words.now }
{
    match part {
        SstPart::Check => match words {
            [] => Some(false),
            _ => None,
        },
        SstPart::Scan | SstPart::Properties => read_hex(words),
    }
}

/// The command of the words after `drill`, whose number is from 1 to 100,000.
fn read_drill<'a>(arguments: &'a [Text]) -> Option<Command<'a>>
    ensures { option_map told result ≡ drill_of arguments.now }
{
    let (number, rest) = arguments.split_first()?;
    let number = read_number(number.as_str())?;
    if is_count(number) {
        read_drill_alone(number, rest)
    } else {
        None
    }
}

/// Whether a drill takes so many records.
fn is_count(number: u64) -> bool
    ensures { result ≡ (nat_le 1 number && nat_le number 100000) }
{
    1 <= number && number <= 100_000
}

/// The drill of so many records, where no word is left.
fn read_drill_alone<'a>(number: u64, rest: &'a [Text]) -> Option<Command<'a>>
    ensures { option_map told result ≡ alone (drill number) rest.now }
{
    match rest {
        [] => Some(Command::Drill { number }),
        _ => None,
    }
}
