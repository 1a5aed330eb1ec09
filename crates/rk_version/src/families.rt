//! The live families of a version, in rising id.
ghost use Rattle.std.specs.Prelude.{◌≡◌, ◌==◌, ◌&&◌, false, not, filter, find, max, map, if◌then◌else◌, List, IfOk};
ghost use Rattle.std.specs.List.{AllByRecursion, list_any};
ghost use Rattle.std.specs.Option.{option_copied, ForSome};
ghost use Rattle.rk_bytes.specs.Model.Manifest.{has_id, has_name, has_number, add_family, drop_family, add_meta};
ghost use Rattle.rk_version.specs.Keyed.{put};
ghost use Rattle.rk_version.specs.Places.{Rises};
ghost use Rattle.rk_version.specs.Bounds.{HasFilesInOrder};

use crate::place::place_of_family;
use crate::{FamilyState, FileMeta, files};
use rk_bytes::{Bytes, Memory, Seq};
use std::alloc::Global;
use std::mem;

/// Whether a family has this id.
pub(crate) fn has_id(families: &[FamilyState], id: u32) -> bool
    requires { Rises (λ live. live.id) families.now }
    ensures { result ≡ list_any (has_id id) families.now }
{
    place_of_family(families, id).is_ok()
}

/// The family that has this id.
pub(crate) fn find_family<'a>(families: &'a [FamilyState], id: u32) -> Option<&'a FamilyState>
    requires ids { Rises (λ live. live.id) families.now }
    requires files { AllByRecursion HasFilesInOrder families.now }
    ensures found { option_copied result ≡ find (has_id id) families.now }
    ensures order { ForSome (option_copied result) HasFilesInOrder }
{
    match place_of_family(families, id) {
        Ok(place) => Some(&families[place]),
        Err(_) => None,
    }
}

/// Whether a family has this name.
pub(crate) fn has_name(families: &[FamilyState], name: &[u8]) -> bool
    ensures { result ≡ list_any (has_name name.now) families.now }
{
    families.iter().any(|live| live.name.as_slice() == name)
}

/// Whether a file of any family has this number.
pub(crate) fn has_file(families: &[FamilyState], number: u64) -> bool
    requires { AllByRecursion HasFilesInOrder families.now }
    ensures { result ≡ list_any (λ live. list_any (has_number number) live.files) families.now }
{
    for live in families {
        if files::has_file(live.files.as_slice(), number) {
            return true;
        }
    }
    false
}

/// Whether the family has a file with this number at this level.
pub(crate) fn has_file_at(families: &[FamilyState], id: u32, level: u32, number: u64) -> bool
    requires ids { Rises (λ live. live.id) families.now }
    requires files { AllByRecursion HasFilesInOrder families.now }
    ensures { result ≡ list_any (λ live. has_id id live && list_any (λ file. has_number number file && file.level == level) live.files) families.now }
{
    match place_of_family(families, id) {
        Ok(place) => files::has_file_at(families[place].files.as_slice(), level, number),
        Err(_) => false,
    }
}

/// The families with one more, whose id none of them has, and which has no files.
pub(crate) fn with_family(
    alloc: Global,
    families: Seq<FamilyState>,
    id: u32,
    name: &[u8],
) -> Result<Seq<FamilyState>, Memory>
    requires ids { Rises (λ live. live.id) families }
    requires free { list_any (has_id id) families ≡ false }
    ensures { IfOk result (λ more. more ≡ add_family id name.now families) }
{
    let mut families = families.into_vec();
    let name = Bytes::copy_of(alloc, name)?;
    let family = FamilyState {
        id,
        name,
        log: 0,
        files: Seq::new(alloc),
    };
    match place_of_family(&families, id) {
        Ok(_) => unreachable!(),
        Err(place) => families.insert(place, family)?,
    }
    Ok(Seq::from_vec(families))
}

/// The families without the one that has this id, if one has it. Takes no memory.
pub(crate) fn without_family(families: Seq<FamilyState>, id: u32) -> Seq<FamilyState>
    requires { Rises (λ live. live.id) families }
    ensures { result ≡ drop_family id families }
{
    let mut families = families.into_vec();
    if let Ok(place) = place_of_family(&families, id) {
        families.remove(place);
    }
    Seq::from_vec(families)
}

/// The families with one more file in the one that has this id, whose number none of its files has.
pub(crate) fn with_file(
    alloc: Global,
    families: Seq<FamilyState>,
    id: u32,
    file: FileMeta,
) -> Result<Seq<FamilyState>, Memory>
    requires ids { Rises (λ live. live.id) families }
    requires files { AllByRecursion HasFilesInOrder families }
    requires free { list_any (λ live. list_any (has_number file.number) live.files) families ≡ false }
    ensures { IfOk result (λ more. more ≡ map (λ live. if has_id id live then record live { files = add_meta file live.files } else live) families) }
{
    let mut families = families.into_vec();
    if let Ok(place) = place_of_family(&families, id) {
        let live = &mut families[place];
        let files = mem::replace(&mut live.files, Seq::new(alloc));
        live.files = files::with_file(files, file)?;
    }
    Ok(Seq::from_vec(families))
}

/// The families without the file that has this number in the one that has this id. Takes no memory.
pub(crate) fn without_file(
    alloc: Global,
    families: Seq<FamilyState>,
    id: u32,
    number: u64,
) -> Seq<FamilyState>
    requires ids { Rises (λ live. live.id) families }
    requires files { AllByRecursion HasFilesInOrder families }
    ensures { result ≡ map (λ live. if has_id id live then record live { files = filter (λ file. not (has_number number file)) live.files } else live) families }
{
    let mut families = families.into_vec();
    if let Ok(place) = place_of_family(&families, id) {
        let live = &mut families[place];
        let files = mem::replace(&mut live.files, Seq::new(alloc));
        live.files = files::without_file(files, number);
    }
    Seq::from_vec(families)
}

/// The families with the log number of the one that has this id, where it is lower, raised to this one. Takes
/// no memory.
pub(crate) fn with_log(families: Seq<FamilyState>, id: u32, log: u64) -> Seq<FamilyState>
    requires { Rises (λ live. live.id) families }
    ensures { result ≡ map (λ live. if has_id id live then record live { log = max live.log log } else live) families }
{
    let mut families = families.into_vec();
    if let Ok(place) = place_of_family(&families, id) {
        let live = &mut families[place];
        live.log = live.log.max(log);
    }
    Seq::from_vec(families)
}

/// The families with this one, which takes the place of one that has its id.
pub(crate) fn with_live(
    families: Seq<FamilyState>,
    live: FamilyState,
) -> Result<Seq<FamilyState>, Memory>
    requires { Rises (λ live. live.id) families }
    ensures { IfOk result (λ more. more ≡ put (λ live. live.id) live families) }
{
    let mut families = families.into_vec();
    match place_of_family(&families, live.id) {
        Ok(place) => families[place] = live,
        Err(place) => families.insert(place, live)?,
    }
    Ok(Seq::from_vec(families))
}
