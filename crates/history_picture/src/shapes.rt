//! The tags of a page that have a class or numbers in them.

use std::fmt;

/// How a shape looks.
#[derive(Clone, Copy)]
pub enum Class {
    /// The names of the lanes.
    Names,
    /// The names of the lanes once more.
    Again,
    /// A strip of the picture.
    Strip,
    /// The rows of a lane.
    Lane,
    /// The rows of every second lane.
    Odd,
    /// An event.
    Tick,
    /// A crash.
    Crash,
    /// A call whose two events are drawn.
    Bar,
    /// A call of which one event isn't drawn.
    Cut,
    /// A call without a reply.
    Unanswered,
    /// A call that a crash took away.
    Lost,
    /// The words in a bar.
    Label,
    /// A call without a mark.
    Plain,
    /// The call that is asked for.
    Asked,
    /// The call at fault.
    Fault,
    /// A call that explains the fault.
    Explains,
}

impl fmt::Display for Class {
    ghost use Rattle.std.specs.Prelude.{Some};
    ghost use Rattle.history_picture.specs.Shapes.{class_words};

    ghost output = { λ class. Some (class_words class) };

    fn fmt<W: fmt::Write>(&self, f: &mut fmt::Formatter<W>) -> fmt::Result {
        match self {
            Class::Names => f.write_str("names"),
            Class::Again => f.write_str("again"),
            Class::Strip => f.write_str("strip"),
            Class::Lane => f.write_str("lane"),
            Class::Odd => f.write_str("odd"),
            Class::Tick => f.write_str("tick"),
            Class::Crash => f.write_str("crash"),
            Class::Bar => f.write_str("bar"),
            Class::Cut => f.write_str("cut"),
            Class::Unanswered => f.write_str("unanswered"),
            Class::Lost => f.write_str("lost"),
            Class::Label => f.write_str("label"),
            Class::Plain => f.write_str("plain"),
            Class::Asked => f.write_str("asked"),
            Class::Fault => f.write_str("fault"),
            Class::Explains => f.write_str("explains"),
        }
    }
}

/// A tag. Lengths are in pixels, from the upper left corner.
#[derive(Clone, Copy)]
pub enum Shape {
    /// The beginning of a part of the picture, from one place on.
    Svg {
        class: Class,
        left: u64,
        width: u64,
        height: u64,
    },
    /// What belongs together.
    Group(Class),
    /// A rectangle.
    Rect {
        class: Class,
        x: u64,
        y: u64,
        width: u64,
        height: u64,
    },
    /// A rectangle that has no edge on one side.
    Open {
        class: Class,
        free: u64,
        top: u64,
        closed: u64,
        bottom: u64,
    },
    /// A line from above to below.
    Upright {
        class: Class,
        x: u64,
        top: u64,
        bottom: u64,
    },
    /// The beginning of a text, above this height.
    Text {
        class: Class,
        x: u64,
        y: u64,
    },
    /// The beginning of a row of the table, with its first cell.
    Row(Class),
}

impl fmt::Display for Shape {
    ghost use Rattle.std.specs.Prelude.{Some};
    ghost use Rattle.history_picture.specs.Shapes.{shape_words};

    ghost output = { λ shape. Some (shape_words shape) };

    fn fmt<W: fmt::Write>(&self, f: &mut fmt::Formatter<W>) -> fmt::Result {
        match self {
            Shape::Svg {
                class,
                left,
                width,
                height,
            } => {
                write!(
                    f,
                    "<svg class=\"{class}\" width=\"{width}\" height=\"{height}\""
                )?;
                writeln!(f, " viewBox=\"{left} 0 {width} {height}\">")
            }
            Shape::Group(class) => write!(f, "<g class=\"{class}\">"),
            Shape::Rect {
                class,
                x,
                y,
                width,
                height,
            } => writeln!(
                f,
                "<rect class=\"{class}\" x=\"{x}\" y=\"{y}\" width=\"{width}\" height=\"{height}\"/>"
            ),
            Shape::Open {
                class,
                free,
                top,
                closed,
                bottom,
            } => writeln!(
                f,
                "<path class=\"{class}\" d=\"M{free} {top}H{closed}V{bottom}H{free}\"/>"
            ),
            Shape::Upright {
                class,
                x,
                top,
                bottom,
            } => writeln!(
                f,
                "<line class=\"{class}\" x1=\"{x}\" y1=\"{top}\" x2=\"{x}\" y2=\"{bottom}\"/>"
            ),
            Shape::Text { class, x, y } => {
                write!(f, "<text class=\"{class}\" x=\"{x}\" y=\"{y}\">")
            }
            Shape::Row(class) => write!(f, "<tr class=\"{class}\"><td>"),
        }
    }
}
