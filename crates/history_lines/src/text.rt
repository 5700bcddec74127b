//! Text of which every byte is printable, whatever it is made of.

ghost use Rattle.std.specs.Prelude.{◌≡◌, ◌<◌, [], All, IfOk};
ghost use Rattle.history_lines.specs.Printable.{IsPrintable, IsLine};

use crate::look::{Found, Look, Sought};
use crate::short::short_of;
use indexmap::IndexMap;
use itoa::Buffer;
use std::alloc::{AllocError, Global};
use std::marker::Model;

/// How many bytes of data are shown.
const FIRST_BYTES: usize = 16;

/// A line of printable bytes, with its line feed.
#[derive(Drop)]
pub struct Line {
    bytes: Vec<u8>,
}

impl Model for Line {
    ghost use Rattle.std.specs.Prelude.{List, ℕ};
    ghost use Rattle.history_lines.specs.Printable.{IsLine};

    ghost Value = { List ℕ };

    ghost view = { λ l. l.bytes.items };

    ghost invariant = { λ l. IsLine l.bytes.items };
}

impl Line {
    /// Its bytes, with the line feed.
    pub fn as_slice(&self) -> &[u8]
        ensures shown { result.now ≡ self.now }
        ensures line { IsLine self.now }
    {
        self.bytes.as_slice()
    }
}

/// The text of a line that is being made, and what it names of that which is looked for. It remembers that memory ran out: what is
/// appended by `add_..` may be asked for once, at the end, and `push_..` asks at once.
pub struct Text<'a> {
    content: Vec<u8>,
    /// Whether memory ran out. Nothing is appended from then on.
    is_short: bool,
    sought: Option<&'a Sought>,
    found: Found,
    has_short_handles: bool,
    /// What stands for handles in place of their bytes.
    handles: IndexMap<Vec<u8>, Vec<u8>>,
}

impl Drop for Text<'_> {
    fn drop(self) {
        let Text {
            content,
            is_short: _,
            sought: _,
            found: _,
            has_short_handles: _,
            handles,
        } = self;
        drop(content);
        drop(handles);
    }
}

impl<'a> Model for Text<'a> {
    ghost use Rattle.std.specs.Prelude.{List, ℕ, All};
    ghost use Rattle.history_lines.specs.Printable.{IsPrintable};

    ghost Value = { List ℕ };

    ghost view = { λ t. t.content.items };

    ghost invariant = { λ t. All IsPrintable t.content.items };
}

/// A hexadecimal digit.
fn hex_digit(value: u8) -> u8
    requires { value < 16 }
    ensures { IsPrintable result }
{
    if value < 10 {
        b'0' + value
    } else {
        b'a' + (value - 10)
    }
}

/// The line of printable bytes, unless memory ran out before all were there.
fn line_of(content: Vec<u8>, is_short: bool) -> Result<Line, AllocError>
    requires { All IsPrintable content.items }
    ensures { IfOk result IsLine }
{
    if is_short {
        return Err(AllocError);
    }
    let mut bytes = content;
    bytes.push(b'\n')?;
    Ok(Line { bytes })
}

impl<'a> Text<'a> {
    /// No text, in which nothing is looked for.
    pub fn new(alloc: Global) -> Text<'a> {
        Text {
            content: Vec::new(alloc),
            is_short: false,
            sought: None,
            found: Found {
                has_handle: false,
                has_name: false,
            },
            has_short_handles: false,
            handles: IndexMap::new(alloc),
        }
    }

    /// Its bytes so far.
    pub fn as_slice(&self) -> &[u8] {
        self.content.as_slice()
    }

    /// Whether all of it is there: an error where memory ran out.
    pub fn whole(&self) -> Result<(), AllocError> {
        if self.is_short {
            return Err(AllocError);
        }
        Ok(())
    }

    /// Notes that memory ran out.
    pub(crate) fn note_no_memory(&mut self) {
        self.is_short = true;
    }

    /// Lets a text stand for a handle from now on.
    pub fn name_handle(&mut self, handle: Vec<u8>, name: Text<'_>) -> Result<(), AllocError> {
        let Text {
            content,
            is_short,
            sought: _,
            found: _,
            has_short_handles: _,
            handles,
        } = name;
        drop(handles);
        self.is_short = self.is_short || is_short;
        self.handles.insert(handle, content)?;
        self.whole()
    }

    /// What stands for a handle, where it isn't its bytes.
    fn name_of(&self, handle: &[u8]) -> Result<Option<Vec<u8>>, AllocError> {
        match self.handles.get(handle) {
            Some(name) => Ok(Some(name.clone()?)),
            None => Ok(None),
        }
    }

    /// No text, in which is looked for what a look is for.
    pub(crate) fn of_look(alloc: Global, look: &'a Look) -> Text<'a> {
        let mut text = Text::new(alloc);
        text.sought = Some(&look.sought);
        text.has_short_handles = look.has_short_handles;
        text
    }

    /// What it names of that which is looked for.
    pub(crate) fn found(&self) -> Result<Found, AllocError> {
        if self.is_short {
            return Err(AllocError);
        }
        Ok(self.found)
    }

    /// Appends a printable byte.
    fn add(&mut self, byte: u8)
        requires { IsPrintable byte }
    {
        if !self.is_short && self.content.push(byte).is_err() {
            self.is_short = true;
        }
    }

    /// Appends a byte as two hexadecimal digits.
    fn add_hex_byte(&mut self, byte: u8) {
        self.add(hex_digit(byte / 16));
        self.add(hex_digit(byte % 16));
    }

    /// Appends a byte as it stands, or after `\x` where it isn't printable.
    fn add_shown(&mut self, byte: u8) {
        if byte >= b' ' && byte <= b'~' {
            self.add(byte);
        } else {
            self.add(b'\\');
            self.add(b'x');
            self.add_hex_byte(byte);
        }
    }

    /// Appends bytes, each as it stands where it is printable.
    fn add_all_shown(&mut self, bytes: &[u8]) {
        for byte in bytes {
            self.add_shown(*byte);
        }
    }

    /// Appends words.
    pub fn add_words(&mut self, words: &str) {
        self.add_all_shown(words.as_bytes());
    }

    /// Appends a number in decimal.
    pub fn add_decimal(&mut self, number: u64) {
        self.add_words(Buffer::new().format(number));
    }

    /// Appends words and a number in octal.
    pub fn add_octal(&mut self, words: &str, number: u32) {
        self.add_words(words);
        let mut is_leading = true;
        for place in (0..11u32).rev() {
            let digit = (number >> (3 * place)) % 8;
            is_leading = is_leading && digit == 0 && place > 0;
            if !is_leading {
                self.add(b'0' + digit as u8);
            }
        }
    }

    /// Appends bytes in hexadecimal.
    pub fn add_hex(&mut self, bytes: &[u8]) {
        for byte in bytes {
            self.add_hex_byte(*byte);
        }
    }

    /// Appends words and a number in decimal.
    pub fn add_number(&mut self, words: &str, number: u64) {
        self.add_words(words);
        self.add_decimal(number);
    }

    /// Appends words and a number in hexadecimal, with all its zeros.
    pub fn add_word(&mut self, words: &str, number: u32) {
        self.add_words(words);
        self.add_hex(number.to_be_bytes().as_slice());
    }

    /// Appends words and eight bytes in hexadecimal.
    pub fn add_long(&mut self, words: &str, number: u64) {
        self.add_words(words);
        self.add_hex(number.to_be_bytes().as_slice());
    }

    // Notes whether a handle is looked for.
    fn note_handle(&mut self, handle: &[u8]) {
        if let Some(sought) = self.sought {
            self.found.has_handle = self.found.has_handle || sought.is_handle(handle);
        }
    }

    // Notes whether a name is looked for.
    fn note_name(&mut self, name: &[u8]) {
        if let Some(sought) = self.sought {
            self.found.has_name = self.found.has_name || sought.is_name(name);
        }
    }

    /// Appends a handle in hexadecimal or by its short form; one of no bytes as `empty`.
    fn add_unnamed(&mut self, handle: &[u8]) {
        if handle.is_empty() {
            self.add_words("empty");
        } else if self.has_short_handles {
            self.add_words("#");
            self.add_hex(short_of(handle).bytes().as_slice());
        } else {
            self.add_hex(handle);
        }
    }

    /// Appends a handle, or what stands for it.
    fn add_named(&mut self, handle: &[u8], name: Option<Vec<u8>>) {
        match name {
            Some(name) => self.add_all_shown(name.as_slice()),
            None => self.add_unnamed(handle),
        }
    }

    /// Appends words and a handle: by its name, where it has one, else in hexadecimal or by its short form; one of no bytes as `empty`.
    pub fn add_handle(&mut self, words: &str, handle: &[u8]) {
        self.add_words(words);
        self.note_handle(handle);
        match self.name_of(handle) {
            Ok(name) => self.add_named(handle, name),
            Err(AllocError) => self.note_no_memory(),
        }
    }

    /// Appends words and a name in a directory, as [`Text::add_quoted`] does a text.
    pub fn add_name(&mut self, words: &str, name: &[u8]) {
        self.note_name(name);
        self.add_quoted(words, name);
    }

    /// Appends words and a text between quotes, in which a quote and a backslash stand after a backslash.
    pub fn add_quoted(&mut self, words: &str, text: &[u8]) {
        self.add_words(words);
        self.add(b'"');
        for byte in text {
            if matches!(*byte, b'"' | b'\\') {
                self.add(b'\\');
            }
            self.add_shown(*byte);
        }
        self.add(b'"');
    }

    /// Appends bytes as `add_bytes` does, where there are any.
    pub fn add_any_bytes(&mut self, words: &str, bytes: &[u8]) {
        if !bytes.is_empty() {
            self.add_bytes(words, bytes);
        }
    }

    /// Appends words, how many bytes there are, and the first of them in hexadecimal.
    pub fn add_bytes(&mut self, words: &str, bytes: &[u8]) {
        self.add_number(words, bytes.len() as u64);
        self.add_words(" bytes");
        if bytes.is_empty() {
            return;
        }
        self.add_words(" ");
        if bytes.len() > FIRST_BYTES {
            self.add_hex(&bytes[..FIRST_BYTES]);
            self.add_words("..");
        } else {
            self.add_hex(bytes);
        }
    }

    /// Appends words.
    pub fn push_words(&mut self, words: &str) -> Result<(), AllocError> {
        self.add_words(words);
        self.whole()
    }

    /// Appends a number in decimal.
    pub fn push_decimal(&mut self, number: u64) -> Result<(), AllocError> {
        self.add_decimal(number);
        self.whole()
    }

    /// Appends words and a number in octal.
    pub fn push_octal(&mut self, words: &str, number: u32) -> Result<(), AllocError> {
        self.add_octal(words, number);
        self.whole()
    }

    /// Appends bytes in hexadecimal.
    pub fn push_hex(&mut self, bytes: &[u8]) -> Result<(), AllocError> {
        self.add_hex(bytes);
        self.whole()
    }

    /// Appends words and a number in decimal.
    pub fn push_number(&mut self, words: &str, number: u64) -> Result<(), AllocError> {
        self.add_number(words, number);
        self.whole()
    }

    /// Appends words and a number in hexadecimal, with all its zeros.
    pub fn push_word(&mut self, words: &str, number: u32) -> Result<(), AllocError> {
        self.add_word(words, number);
        self.whole()
    }

    /// Appends words and eight bytes in hexadecimal.
    pub fn push_long(&mut self, words: &str, number: u64) -> Result<(), AllocError> {
        self.add_long(words, number);
        self.whole()
    }

    /// Appends words and a handle, as [`Text::add_handle`] does.
    pub fn push_handle(&mut self, words: &str, handle: &[u8]) -> Result<(), AllocError> {
        self.add_handle(words, handle);
        self.whole()
    }

    /// Appends words and a name in a directory, as [`Text::add_name`] does.
    pub fn push_name(&mut self, words: &str, name: &[u8]) -> Result<(), AllocError> {
        self.add_name(words, name);
        self.whole()
    }

    /// Appends words and a text between quotes, as [`Text::add_quoted`] does.
    pub fn push_quoted(&mut self, words: &str, text: &[u8]) -> Result<(), AllocError> {
        self.add_quoted(words, text);
        self.whole()
    }

    /// Appends bytes as `push_bytes` does, where there are any.
    pub fn push_any_bytes(&mut self, words: &str, bytes: &[u8]) -> Result<(), AllocError> {
        self.add_any_bytes(words, bytes);
        self.whole()
    }

    /// Appends words, how many bytes there are, and the first of them in hexadecimal.
    pub fn push_bytes(&mut self, words: &str, bytes: &[u8]) -> Result<(), AllocError> {
        self.add_bytes(words, bytes);
        self.whole()
    }

    /// The line of this text.
    pub fn into_line(self) -> Result<Line, AllocError>
        ensures { IfOk result IsLine }
    {
        let Text {
            content,
            is_short,
            sought: _,
            found: _,
            has_short_handles: _,
            handles,
        } = self;
        drop(handles);
        line_of(content, is_short)
    }
}
