//! A JSON object, as its members in the order in which they are written.

use serde::{Described, Serialize, Serializer};
use std::alloc::{AllocError, Global};

/// What a member holds.
#[derive(Clone, Copy)]
pub(crate) enum Content<'a> {
    Text(&'a str),
    Number(u64),
}

/// A member of an object.
#[derive(Clone, Copy)]
pub(crate) struct Member<'a> {
    name: &'a str,
    content: Content<'a>,
}

impl<'a> Member<'a> {
    /// A name and a text.
    pub(crate) fn text(name: &'a str, text: &'a str) -> Member<'a> {
        Member {
            name,
            content: Content::Text(text),
        }
    }

    /// A name and a number.
    pub(crate) fn number(name: &'a str, number: u64) -> Member<'a> {
        Member {
            name,
            content: Content::Number(number),
        }
    }
}

/// An object.
#[derive(Drop)]
pub(crate) struct Object<'a> {
    members: Vec<Member<'a>>,
}

impl Described for Object<'_> {}

impl Serialize for Object<'_> {
    fn serialize<S: Serializer>(&self, out: &mut S) -> Result<(), S::Error> {
        out.begin_map(Some(self.members.len()))?;
        for member in self.members.iter() {
            out.key(member.name)?;
            match member.content {
                Content::Text(text) => out.str(text)?,
                Content::Number(number) => out.u64(number)?,
            }
        }
        out.end_map()
    }
}

impl<'a> Object<'a> {
    /// One without members.
    pub(crate) fn new(alloc: Global) -> Object<'a> {
        Object {
            members: Vec::new(alloc),
        }
    }

    /// Puts a member behind the others.
    pub(crate) fn put(&mut self, member: Member<'a>) -> Result<(), AllocError> {
        self.members.push(member)?;
        Ok(())
    }

    /// Puts a member behind the others, if there is one.
    pub(crate) fn put_some(&mut self, member: Option<Member<'a>>) -> Result<(), AllocError> {
        match member {
            Some(member) => self.put(member),
            None => Ok(()),
        }
    }

    /// The object's text without a space, and a line feed.
    pub(crate) fn line(&self, alloc: Global) -> Result<String, AllocError> {
        // It has texts and numbers alone, so nothing but memory can be lacking.
        let Ok(text) = serde_json::to_string(alloc, self) else {
            return Err(AllocError);
        };
        let mut line = text;
        line.push_str("\n")?;
        Ok(line)
    }
}
