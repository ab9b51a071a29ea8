// What is read of a sheet so far.
ghost use Rattle.std.specs.Prelude.{◌≡◌, ◌∷◌, ◌++◌, [], IfErr, OnOk};
ghost use Rattle.sh_sheet.specs.{Row.{has_mark}, Sheet.{marks_in}, Reader.{is_start, HasMarks}, declared.item.SheetFault.TheVariants.{NoMemory}};

use crate::deed::Deed;
use crate::{Item, SheetFault};
use std::collections::BTreeSet;

/// The items of the rows so far, whether they stand behind a heading, and the numbers of their marks.
#[derive(Debug, Drop)]
pub(crate) struct Found {
    pub(crate) headed: bool,
    pub(crate) items: Vec<Item>,
    pub(crate) marks: BTreeSet<u64>,
}

impl Found {
    /// Whether no row is taken yet.
    pub(crate) fn is_start(&self) -> bool
        ensures { result ≡ is_start self.now.headed self.now.items.items }
    {
        !self.headed && self.items.is_empty()
    }

    /// Whether a mark is new here, and an after names a mark.
    pub(crate) fn has_mark(&self, deed: &Deed) -> bool
        requires { HasMarks self.now.marks self.now.items.items }
        ensures { result ≡ has_mark (marks_in self.now.items.items) deed.now }
    {
        match *deed {
            Deed::Mark(number) => !self.marks.contains(&number),
            Deed::After(number) => self.marks.contains(&number),
            _ => true,
        }
    }

    /// Adds an item, and its number if it is a mark.
    #[tactic(auto, using(crate::proofs::MarkLemmas::marks_kept, crate::proofs::MarkLemmas::marks_added))]
    pub(crate) fn add(&mut self, item: Item) -> Result<(), SheetFault>
        requires { HasMarks self.old.marks self.old.items.items }
        ensures marks { OnOk result (HasMarks self.new.marks self.new.items.items) }
        ensures items { OnOk result (self.new.items.items ≡ self.old.items.items ++ item ∷ []) }
        ensures headed { self.new.headed ≡ self.old.headed }
        ensures memory { IfErr result (λ e. e ≡ NoMemory) }
    {
        match item {
            Item::Ask { seat, call } => self.items.push(Item::Ask { seat, call })?,
            Item::Mark { number, .. } => {
                self.marks.insert(number)?;
                self.items.push(item)?;
            }
            Item::After { .. } | Item::Turn { .. } => self.items.push(item)?,
        }
        Ok(())
    }
}
