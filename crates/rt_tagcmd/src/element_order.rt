// Elements in order.
ghost use Rattle.std.specs.Prelude.{◌≡◌, IsOkUnless, OnOk};
ghost use Rattle.rt_tagcmd.specs.Stretches.{IsSortOf};

use crate::placed::Placed;
use rt_stamps::Fault;

/// Puts elements in order by their places; at one place they keep their order. `NoMemory` is its only fault.
pub(crate) fn sort(elements: &mut Vec<Placed>) -> Result<(), Fault>
    ensures ok { OnOk result (IsSortOf elements.old.items elements.new.items) }
    ensures err { IsOkUnless result Fault.NoMemory }
{
    elements.sort_by_key(|element| element.place())?;
    Ok(())
}
