use crate::text::Text;

/// A rectangle, in pixels.
#[derive(Clone, Copy)]
pub(crate) struct Rect {
    pub x: u64,
    pub y: u64,
    pub width: u64,
    pub height: u64,
}

/// Adds a rectangle of a class.
pub(crate) fn append_box(text: &mut Text, class: &str, at: Rect) {
    text.add("<rect class='");
    text.add(class);
    text.add_decimal("' x='", at.x);
    text.add_decimal("' y='", at.y);
    text.add_decimal("' width='", at.width);
    text.add_decimal("' height='", at.height);
    text.add("'/>\n");
}

/// Adds the front of a text of a class. Its content follows, and `end_label`.
pub(crate) fn begin_label(text: &mut Text, class: &str, x: u64, y: u64) {
    text.add("<text class='");
    text.add(class);
    text.add_decimal("' x='", x);
    text.add_decimal("' y='", y);
    text.add("'>");
}

pub(crate) fn end_label(text: &mut Text) {
    text.add("</text>\n");
}

/// Adds a text of a class.
pub(crate) fn append_label(text: &mut Text, class: &str, x: u64, y: u64, content: &str) {
    begin_label(text, class, x, y);
    text.add(content);
    end_label(text);
}

/// Adds a line across.
pub(crate) fn append_rule(text: &mut Text, class: &str, x: u64, y: u64, width: u64) {
    text.add("<path class='");
    text.add(class);
    text.add_decimal("' d='M", x);
    text.add_decimal(" ", y);
    text.add_decimal("h", width);
    text.add("'/>\n");
}
