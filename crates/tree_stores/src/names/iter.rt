//! A walk over names.

ghost use Rattle.std.specs.Iterator.{YieldsFirstBy, item_count};

use crate::names::few::Named;
use crate::names::short_name::ShortName;
use std::collections::btree_map;
use std::marker::Model;

/// The names with their objects, in the names' order, seen as the list of those that are left.
#[derive(Drop)]
pub struct Iter<'a> {
    pub(crate) walk: Walk<'a>,
}

/// What is left of a walk.
#[derive(Drop)]
pub(crate) enum Walk<'a> {
    Few(&'a [Named]),
    Short(btree_map::Iter<'a, ShortName, u64>),
    Long(btree_map::Iter<'a, Vec<u8>, u64>),
}

impl<'a> Model for Iter<'a> {
    ghost use Rattle.std.specs.Prelude.{ℕ, List};
    ghost use Rattle.tree_stores.specs.Walks.{left_of};

    ghost Value = { List (List ℕ × ℕ) };

    ghost view = { λ it. left_of it.walk };
}

impl<'a> Iterator for Iter<'a> {
    type Item = (&'a [u8], u64);

    ghost next_gives = { YieldsFirstBy (λ item. (item.0.now, item.1)) (λ rest. rest) };

    ghost remaining = { item_count (λ rest. rest) };

    fn next(&mut self) -> Option<(&'a [u8], u64)> {
        match &mut self.walk {
            Walk::Few(left) => {
                let (named, rest) = left.split_first()?;
                *left = rest;
                Some((named.name.as_slice(), named.object))
            }
            Walk::Short(left) => {
                let (name, object) = left.next()?;
                Some((name.as_slice(), *object))
            }
            Walk::Long(left) => {
                let (name, object) = left.next()?;
                Some((name.as_slice(), *object))
            }
        }
    }
}
