ghost use Rattle.std.specs.Prelude.{◌≡◌, ◌⊎◌, ◌∷◌, ◌++◌, [], Err, IfOk, OnOk, map};
ghost use Rattle.rk_bytes.specs.Model.BlockEntries.{with_fault};
ghost use Rattle.rk_bytes.specs.Model.TableStatus.{property_list};
ghost use Rattle.rk_meta.specs.Walk.{property_of};

use crate::Property;
use crate::walk::next_value;
use rk_block::{BlockView, Entries, KeyBuf};
use rk_bytes::model::BlockFault;
use rk_bytes::{Bytes, Memory, Seq};
use std::alloc::Global;

/// Why properties can't be read.
#[derive(Clone, Copy, Debug, PartialEq, Eq)]
pub enum PropFault {
    /// The block doesn't read.
    Block(BlockFault),
    /// Memory ran out.
    Memory,
}

/// Reads a block of properties, in its order. Their values' forms aren't looked at. `Memory` comes only
/// where memory runs out.
pub fn read_properties(alloc: Global, block: &[u8]) -> Result<Seq<Property>, PropFault>
    ensures { (result ≡ with_fault PropFault.Block (property_list block.now)) ⊎ (result ≡ Err PropFault.Memory) }
{
    match BlockView::read(block) {
        Ok(view) => match properties_in(alloc, view.entries()) {
            Ok(properties) => Ok(properties),
            Err(_) => Err(PropFault::Memory),
        },
        Err(fault) => Err(PropFault::Block(fault)),
    }
}

/// The properties that the entries are.
fn properties_in(alloc: Global, mut entries: Entries<'_>) -> Result<Seq<Property>, Memory>
    requires { entries.key ≡ [] }
    ensures { IfOk result (λ properties. properties ≡ map property_of entries.entry.left) }
{
    let mut key = KeyBuf::new(alloc);
    let mut properties = Seq::new(alloc);
    while let Some(value) = next_value(&mut entries, &mut key)? {
        push_property(alloc, &mut properties, key.as_slice(), value)?;
    }
    Ok(properties)
}

/// Puts a property at the end.
fn push_property(
    alloc: Global,
    properties: &mut Seq<Property>,
    name: &[u8],
    value: &[u8],
) -> Result<(), Memory>
    ensures { OnOk result (properties.new ≡ properties.old ++ (record { name = name.now; value = value.now }) ∷ []) }
{
    let name = Bytes::copy_of(alloc, name)?;
    let value = Bytes::copy_of(alloc, value)?;
    properties.push(Property { name, value })
}
