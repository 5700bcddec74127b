//! The pages of a file by their numbers, and what they are to be after a write or a cut.

ghost use Rattle.std.specs.Prelude.{◌≡◌, ◌+◌, ◌-◌, ◌*◌, ◌^◌, ◌<◌, ◌≤◌, ℕ, length, take, drop, cond, nat_eq, slice_index, IsTrue, IfOk, OnOk};
ghost use Rattle.tree_stores.specs.Shows.{AllShown};
ghost use Rattle.tree_stores.specs.Paged.{page_of, byte_of, HasRoom, changed, overwritten, first_cut, cut};

use crate::file_bytes::changes::Change;
use crate::file_bytes::page::{PAGE, Page, are_same};
use std::alloc::{AllocError, Global};
use std::collections::BTreeMap;
use std::mem;

/// The page at 0, which is empty where all its bytes are zeros, and the others that aren't all zeros. So a file whose bytes
/// lie on its first page takes no node of a tree.
#[derive(Drop)]
pub(crate) struct Pages {
    pub(crate) first: Page,
    pub(crate) rest: BTreeMap<u64, Page>,
}

impl Pages {
    /// No bytes but zeros.
    pub(crate) fn new(alloc: Global) -> Pages
        ensures { byte_of result ≡ (λ _. 0) }
    {
        Pages {
            first: Page::new(),
            rest: BTreeMap::new(alloc),
        }
    }

    /// These bytes on the first page.
    pub(crate) fn one(alloc: Global, bytes: &[u8]) -> Result<Pages, AllocError>
        requires { length bytes.now ≤ PAGE }
        ensures { IfOk result (λ pages. byte_of pages ≡ slice_index bytes.now) }
    {
        Ok(Pages {
            first: Page::front(alloc, bytes, PAGE)?,
            rest: BTreeMap::new(alloc),
        })
    }

    /// The same bytes.
    pub(crate) fn copy(&self) -> Result<Pages, AllocError>
        ensures { IfOk result (λ pages. byte_of pages ≡ byte_of self.now) }
    {
        let first = self.first.clone()?;
        let rest = self.rest.clone()?;
        Ok(Pages { first, rest })
    }

    /// A number of the bytes, the same for equal ones.
    pub(crate) fn number(&self) -> u64 {
        let mut number = self.first.sum();
        for (place, page) in self.rest.iter() {
            number = number.wrapping_add(page.sum().wrapping_mul(factor_of(*place)));
        }
        number
    }

    /// Whether each page behind the first shows here what others show there.
    fn shows(&self, others: &Pages) -> bool
        ensures { IsTrue result → AllShown others.now self.now.rest.entries }
    {
        for (number, page) in self.rest.iter() {
            if !are_same(page.as_slice(), stored(others, *number)) {
                return false;
            }
        }
        true
    }

    /// The same, both ways.
    fn shows_both(&self, other: &Pages) -> bool
        ensures { IsTrue result → AllShown other.now self.now.rest.entries × AllShown self.now other.now.rest.entries }
    {
        self.shows(other) && other.shows(self)
    }

    /// Whether the bytes are the same.
    pub(crate) fn is_same(&self, other: &Pages) -> bool
        ensures { IsTrue result → byte_of self.now ≡ byte_of other.now }
    {
        if self.first.sum() != other.first.sum() {
            return false;
        }
        if are_same(self.first.as_slice(), other.first.as_slice()) {
            return self.shows_both(other);
        }
        false
    }
}

/// What the bytes of a page count with by its number.
fn factor_of(number: u64) -> u64 {
    number.wrapping_mul(0x9e37_79b9_7f4a_7c16).wrapping_add(1)
}

/// The bytes of a page.
pub(crate) fn stored(pages: &Pages, number: u64) -> &[u8]
    ensures value { result.now ≡ page_of pages.now number }
    ensures bound { length result.now ≤ PAGE }
{
    if number == 0 {
        return pages.first.as_slice();
    }
    match pages.rest.get(&number) {
        Some(page) => page.as_slice(),
        None => &[],
    }
}

/// Sees that there is a page, if an empty one, at a number.
pub(crate) fn set_up(alloc: Global, pages: &mut Pages, number: u64) -> Result<(), AllocError>
    ensures same { byte_of pages.new ≡ byte_of pages.old }
    ensures kept { (q : ℕ) → HasRoom pages.old q → HasRoom pages.new q }
    ensures room { OnOk result (HasRoom pages.new number) }
{
    if number == 0 {
        return Ok(());
    }
    if pages.rest.contains_key(&number) {
        return Ok(());
    }
    drop(pages.rest.insert(number, Page::new())?);
    Ok(())
}

/// Puts a page at a number, and gives in its place the one that stood there.
pub(crate) fn swap_page(pages: &mut Pages, number: u64, page: &mut Page)
    requires { HasRoom pages.old number }
    ensures stood { page.new ≡ page_of pages.old number }
    ensures puts { (q : ℕ) → page_of pages.new q ≡ cond (nat_eq number q) page.old (page_of pages.old q) }
    ensures kept { (q : ℕ) → HasRoom pages.old q → HasRoom pages.new q }
{
    if number == 0 {
        mem::swap(&mut pages.first, page);
        return;
    }
    let Some(stands) = pages.rest.get_mut(&number) else {
        unreachable!()
    };
    mem::swap(stands, page);
}

/// Takes out the page at a number where it is empty.
pub(crate) fn take_out_empty(pages: &mut Pages, number: u64)
    ensures { byte_of pages.new ≡ byte_of pages.old }
{
    if stored(pages, number).is_empty() {
        drop(pages.rest.remove(&number));
    }
}

/// The bytes that fall on a page, where they stand from an offset on.
pub(crate) fn piece(bytes: &[u8], offset: u64, number: u64) -> &[u8]
    requires { number < 2 ^ 32 }
    ensures { result.now ≡ drop (number * PAGE - offset) (take (number * PAGE + PAGE - offset) bytes.now) }
{
    let len = bytes.len() as u64;
    let start = number * PAGE;
    let from = start.saturating_sub(offset).min(len);
    let to = (start + PAGE).saturating_sub(offset).min(len);
    &bytes[from as usize..to as usize]
}

/// The pages that a write changes.
pub(crate) fn written_pages(
    alloc: Global,
    pages: &Pages,
    offset: u64,
    added: &[u8],
) -> Result<Vec<Change>, AllocError>
    requires { offset + length added.now < 2 ^ 40 }
    ensures { IfOk result (λ changes. changed changes.items (byte_of pages.now) ≡ overwritten (byte_of pages.now) offset added.now) }
{
    let end = offset + added.len() as u64;
    let count = end.div_ceil(PAGE) - offset / PAGE;
    let mut changes = Vec::with_capacity(alloc, count as usize)?;
    for number in offset / PAGE..end.div_ceil(PAGE) {
        let at = offset.saturating_sub(number * PAGE) as usize;
        let page = Page::written(
            alloc,
            stored(pages, number),
            at,
            piece(added, offset, number),
        )?;
        changes.push(Change { number, page })?;
    }
    Ok(changes)
}

/// What a cut changes of the first page.
fn cut_first(alloc: Global, first: &Page, size: u64) -> Result<Vec<Change>, AllocError>
    ensures { IfOk result (λ changes. changes.items ≡ first_cut size first.now) }
{
    if size >= PAGE {
        return Ok(Vec::new(alloc));
    }
    let page = Page::front(alloc, first.as_slice(), size)?;
    let mut changes = Vec::with_capacity(alloc, 1)?;
    changes.push(Change { number: 0, page })?;
    Ok(changes)
}

/// The pages that a cut changes.
pub(crate) fn cut_pages(alloc: Global, pages: &Pages, size: u64) -> Result<Vec<Change>, AllocError>
    ensures { IfOk result (λ changes. changed changes.items (byte_of pages.now) ≡ cut (byte_of pages.now) size) }
{
    let mut changes = cut_first(alloc, &pages.first, size)?;
    for (number, page) in pages.rest.range(size / PAGE..) {
        let kept = size.saturating_sub(number.saturating_mul(PAGE));
        changes.push(Change {
            number: *number,
            page: Page::front(alloc, page.as_slice(), kept)?,
        })?;
    }
    Ok(changes)
}
