//! Text that others wrote, as it stands in XML and in a line.

use std::fmt;

/// Whether a character is a control character (of Unicode's category Cc), or one that XML 1.0 leaves out (section 2.2).
fn is_odd(code: u32) -> bool {
    code < 32 || (127..160).contains(&code) || code == 0xfffe || code == 0xffff
}

/// What stands in XML for a character that has a meaning there, or that a reader would change (XML 1.0, sections 2.4 and 3.3.3).
fn entity_of(character: char) -> Option<&'static str> {
    Some(match character {
        '&' => "&amp;",
        '<' => "&lt;",
        '>' => "&gt;",
        '"' => "&quot;",
        '\t' => "&#9;",
        '\n' => "&#10;",
        '\r' => "&#13;",
        _ => return None,
    })
}

/// A character of a line: an odd one is spelled as in Rust, `\u{1b}`.
#[derive(Clone, Copy)]
struct InLine(char);

impl fmt::Display for InLine {
    fn fmt<W: fmt::Write>(&self, f: &mut fmt::Formatter<W>) -> fmt::Result {
        let character = self.0;
        let code = u32::from(character);
        if is_odd(code) {
            return write!(f, "\\u{{{code:x}}}");
        }
        write!(f, "{character}")
    }
}

/// Text as one line of plain text.
#[derive(Clone, Copy)]
pub(crate) struct Line<'a>(pub(crate) &'a str);

impl fmt::Display for Line<'_> {
    fn fmt<W: fmt::Write>(&self, f: &mut fmt::Formatter<W>) -> fmt::Result {
        for character in self.0.chars() {
            let shown = InLine(character);
            write!(f, "{shown}")?;
        }
        Ok(())
    }
}

/// Text in XML, in an attribute or between tags.
#[derive(Clone, Copy)]
pub(crate) struct Xml<'a>(pub(crate) &'a str);

/// A character in XML.
#[derive(Clone, Copy)]
struct InXml(char);

impl fmt::Display for InXml {
    fn fmt<W: fmt::Write>(&self, f: &mut fmt::Formatter<W>) -> fmt::Result {
        match entity_of(self.0) {
            Some(entity) => f.write_str(entity),
            None => {
                let shown = InLine(self.0);
                write!(f, "{shown}")
            }
        }
    }
}

impl fmt::Display for Xml<'_> {
    fn fmt<W: fmt::Write>(&self, f: &mut fmt::Formatter<W>) -> fmt::Result {
        for character in self.0.chars() {
            let shown = InXml(character);
            write!(f, "{shown}")?;
        }
        Ok(())
    }
}
