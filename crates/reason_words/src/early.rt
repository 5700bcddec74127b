//! The words of a call that is placed too early.

use crate::calls::push_recorded;
use crate::scene::{Scene, push_line};
use history_lines::Text;
use std::alloc::AllocError;

/// Lines of a call that is placed ahead of another one, which had ended when it began.
pub(crate) fn push_early(
    lines: &mut Vec<u8>,
    scene: &Scene<'_, '_>,
    call: u64,
    other: u64,
) -> Result<(), AllocError> {
    push_recorded(lines, scene, call)?;
    push_recorded(lines, scene, other)?;
    let mut text = Text::new(scene.alloc);
    text.push_number("call ", other)?;
    text.push_number(" had ended when call ", call)?;
    text.push_words(" began, and is placed behind it")?;
    push_line(lines, text)
}
