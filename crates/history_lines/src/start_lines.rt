//! A line for the profile of a history, where it isn't plain, and one for each object that its server held at first.

ghost use Rattle.std.specs.Prelude.{◌≡◌, false, if◌then◌else◌, length, IfOk, IfSome};
ghost use Rattle.history_lines.specs.Printable.{IsLine};

use crate::text::{Line, Text};
use std::alloc::{AllocError, Global};
use tree_starts::{Profile, SeenNode, SeenObject, SeenStart};

/// The line of the profile.
fn profile_line(alloc: Global) -> Result<Line, AllocError>
    ensures { IfOk result IsLine }
{
    let mut text = Text::new(alloc);
    text.add_words("profile strict");
    text.into_line()
}

/// Appends what an object is.
fn add_node(text: &mut Text<'_>, name: &[u8], node: &SeenNode<'_>) {
    match node {
        SeenNode::File(bytes) => {
            text.add_quoted(" file ", name);
            text.add_bytes(" ", *bytes);
        }
        SeenNode::Directory => text.add_quoted(" directory ", name),
        SeenNode::Link(target) => {
            text.add_quoted(" link ", name);
            text.add_quoted(" to ", *target);
        }
    }
}

/// The line of starting object `number`.
fn object_line(alloc: Global, number: u64, object: &SeenObject<'_>) -> Result<Line, AllocError>
    ensures { IfOk result IsLine }
{
    let mut text = Text::new(alloc);
    text.add_number("start ", number);
    text.add_number(" in ", object.parent);
    add_node(&mut text, object.name, &object.node);
    text.into_line()
}

/// What a server held at first and how strictly it is judged, and how many lines of these are shown already.
#[derive(Drop)]
pub struct StartLines<'a> {
    start: SeenStart<'a>,
    profile: Profile,
    /// Whether the line of the profile is still to be shown.
    is_strict_left: bool,
    /// How many objects are shown.
    shown: usize,
}

impl<'a> StartLines<'a> {
    ghost use Rattle.history_lines.specs.StartShown.{is_strict, IsNextOfStart, IsSameStart};

    /// Before all lines, or after them where none is asked for.
    pub fn new(start: SeenStart<'a>, profile: Profile, is_asked: bool) -> StartLines<'a>
        ensures start { result.start ≡ start.entry }
        ensures profile { result.profile ≡ profile }
        ensures strict { result.is_strict_left ≡ (if is_asked then is_strict profile else false) }
        ensures shown { result.shown ≡ (if is_asked then 0 else length start.entry) }
    {
        let shown = if is_asked { 0 } else { start.count() };
        StartLines {
            start,
            profile,
            is_strict_left: is_asked && profile == Profile::Strict,
            shown,
        }
    }

    /// The next line, where one is left. After want of memory it goes on with the same one.
    pub fn next_line(&mut self, alloc: Global) -> Result<Option<Line>, AllocError>
        ensures printable { IfOk result (λ line. IfSome line IsLine) }
        ensures shown { IsNextOfStart self.old self.new result }
        ensures kept { IsSameStart self.old self.new }
    {
        if self.is_strict_left {
            let line = profile_line(alloc)?;
            self.is_strict_left = false;
            return Ok(Some(line));
        }
        match self.start.objects().get(self.shown) {
            Some(object) => {
                let line = object_line(alloc, self.shown as u64 + 1, object)?;
                self.shown += 1;
                Ok(Some(line))
            }
            None => Ok(None),
        }
    }
}
