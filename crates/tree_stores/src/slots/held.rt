//! A row that copies share: of slots it is a page, of pages a block.

ghost use Rattle.std.specs.Prelude.{◌≡◌, ◌≤◌, ℕ, length, IsSome, OnOk, slice_index_or};

use crate::shared::{Copied, Shared};
use crate::slots::row::{Blank, Row};
use std::alloc::{AllocError, Global};
use std::mem::replace;

/// A row that copies share. While some of its values change it is moved out of what is shared, so that each step is known to succeed;
/// what is shared has no values then. Where all values are blank there may be no row at all, which takes no memory.
#[derive(Drop)]
pub(crate) struct Held<X> {
    shared: Option<Shared<Row<X>>>,
    pub(crate) own: Option<Row<X>>,
}

impl<X: Drop> Blank for Held<X> {
    ghost use Rattle.std.specs.Prelude.{None};

    ghost blank = { record { shared = None; own = None } };

    fn blank() -> Held<X> {
        Held {
            shared: None,
            own: None,
        }
    }

    fn is_blank(&self) -> bool {
        self.shared.is_none() && self.own.is_none()
    }
}

impl<X> Held<X> {
    ghost use Rattle.tree_stores.specs.Pages.{row_in};

    /// The values.
    pub(crate) fn row(&self) -> &[X]
        ensures is { result.now ≡ row_in self.now }
        ensures short { length result.now ≤ 64 }
    {
        if let Some(row) = &self.own {
            return row.as_slice();
        }
        match &self.shared {
            Some(row) => row.get().as_slice(),
            None => &[],
        }
    }
}

impl<X: Blank + Copied> Held<X> {
    ghost use Rattle.tree_stores.specs.Pages.{row_in};

    /// Has the row to itself: it's moved out of what is shared, or copied where others share it.
    pub(crate) fn own(&mut self, alloc: Global) -> Result<(), AllocError>
        ensures same { row_in self.new ≡ row_in self.old }
        ensures kept { IsSome self.old.own → self.new ≡ self.old }
        ensures own { OnOk result (IsSome self.new.own) }
    {
        if self.own.is_some() {
            return Ok(());
        }
        let row = match &mut self.shared {
            Some(shared) => replace(shared.get_mut()?, Row::none(alloc)),
            None => {
                self.shared = Some(Shared::new(alloc, Row::none(alloc))?);
                Row::none(alloc)
            }
        };
        self.own = Some(row);
        Ok(())
    }

    /// Moves the row back to where it can be shared. The memory is given back where all its values are blank; the one at an index
    /// is looked at first.
    pub(crate) fn share(&mut self, index: usize)
        ensures { (place : ℕ) → slice_index_or (row_in self.new) place X.blank ≡ slice_index_or (row_in self.old) place X.blank }
    {
        let Some(row) = self.own.take() else {
            return;
        };
        if row.all_blank(index) {
            self.shared = None;
            return;
        }
        match &mut self.shared {
            Some(shared) => match shared.get_mut() {
                Ok(place) => *place = row,
                Err(_) => self.own = Some(row),
            },
            None => self.own = Some(row),
        }
    }
}

impl<X: Copied> Copied for Held<X> {
    fn copied(&self) -> Result<Held<X>, AllocError> {
        let own = match &self.own {
            Some(row) => Some(row.copied()?),
            None => None,
        };
        let shared = match &self.shared {
            Some(row) => Some(row.copy()?),
            None => None,
        };
        Ok(Held { shared, own })
    }
}
