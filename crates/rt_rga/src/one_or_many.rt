// Lists that are mostly of one.
ghost use Rattle.std.specs.Prelude.{◌≡◌, ◌++◌, ◌∷◌, [], IsOk, IsOkUnless, OnErr, OnOk};
ghost use Rattle.rt_stamps.specs.declared.fault.Fault.{Fault};
ghost use Rattle.rt_rga.specs.OneOrMany.{items_in};

use rt_stamps::Fault;
use std::alloc::Global;
use std::mem::replace;

/// A list. That of a single item, as typing makes them, takes no memory.
#[derive(Drop)]
pub enum OneOrMany<T> {
    One(T),
    Many(Vec<T>),
}

impl<T: Drop> OneOrMany<T> {
    /// A list of none. It takes no memory.
    pub fn none(alloc: Global) -> OneOrMany<T>
        ensures { items_in result ≡ [] }
    {
        OneOrMany::Many(Vec::new(alloc))
    }

    /// Adds the items behind those of a list. Want of memory, and then that list has the items that it had.
    pub fn move_to(self, list: &mut Vec<T>) -> Result<(), Fault>
        ensures ok { OnOk result (list.new.items ≡ list.old.items ++ items_in self) }
        ensures same { OnErr result (list.new.items ≡ list.old.items) }
        ensures err { IsOkUnless result Fault.NoMemory }
    {
        match self {
            OneOrMany::One(item) => list.push(item)?,
            OneOrMany::Many(items) => {
                let mut items = items;
                list.append(&mut items)?;
            }
        }
        Ok(())
    }

    /// Adds an item behind the others: the first one takes no memory. Want of memory, and then the items
    /// are as they were.
    // It is compiled into its callers, as an item may be large.
    #[inline(always)]
    pub fn push(&mut self, alloc: Global, item: T) -> Result<(), Fault>
        ensures ok { OnOk result (items_in self.new ≡ items_in self.old ++ item ∷ []) }
        ensures same { OnErr result (items_in self.new ≡ items_in self.old) }
        ensures first { items_in self.old ≡ [] → IsOk result }
        ensures err { IsOkUnless result Fault.NoMemory }
    {
        match self {
            OneOrMany::Many(items) if items.is_empty() => *self = OneOrMany::One(item),
            OneOrMany::Many(items) => items.push(item)?,
            OneOrMany::One(_) => {
                let mut items = Vec::new(alloc);
                items.reserve(2)?;
                let OneOrMany::One(first) = replace(self, OneOrMany::none(alloc)) else {
                    unreachable!()
                };
                items.push_reserved(first);
                items.push_reserved(item);
                *self = OneOrMany::Many(items);
            }
        }
        Ok(())
    }

    /// Adds the items of another list behind the others: behind none they take no memory. Want of memory, and then the items
    /// are as they were.
    pub fn append(&mut self, alloc: Global, more: OneOrMany<T>) -> Result<(), Fault>
        ensures ok { OnOk result (items_in self.new ≡ items_in self.old ++ items_in more) }
        ensures same { OnErr result (items_in self.new ≡ items_in self.old) }
        ensures first { items_in self.old ≡ [] → IsOk result }
        ensures err { IsOkUnless result Fault.NoMemory }
    {
        match more {
            OneOrMany::One(item) => self.push(alloc, item),
            OneOrMany::Many(items) => self.append_list(alloc, items),
        }
    }

    // Adds the items of a list behind the others. Want of memory, and then the items are as they were.
    fn append_list(&mut self, alloc: Global, more: Vec<T>) -> Result<(), Fault>
        ensures ok { OnOk result (items_in self.new ≡ items_in self.old ++ more.items) }
        ensures same { OnErr result (items_in self.new ≡ items_in self.old) }
        ensures first { items_in self.old ≡ [] → IsOk result }
        ensures err { IsOkUnless result Fault.NoMemory }
    {
        let mut more = more;
        match self {
            OneOrMany::Many(items) if items.is_empty() => *self = OneOrMany::Many(more),
            OneOrMany::Many(items) => items.append(&mut more)?,
            OneOrMany::One(_) => {
                let mut items = Vec::new(alloc);
                items.reserve(more.len().saturating_add(1))?;
                let OneOrMany::One(first) = replace(self, OneOrMany::none(alloc)) else {
                    unreachable!()
                };
                items.push_reserved(first);
                items.append(&mut more)?;
                *self = OneOrMany::Many(items);
            }
        }
        Ok(())
    }
}
