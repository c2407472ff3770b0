//! Reading the lines of a mirror.

/// The content of a line.
#[derive(Clone, Copy)]
pub enum Line<'a> {
    /// The text of a welcome.
    Welcome(&'a str),
    /// The text of news.
    News(&'a str),
    /// A request for the map.
    Map,
}

/// Reads a line, or returns `None` if it has none of the known forms.
pub fn read(line: &str) -> Option<Line<'_>> {
    if line == "map" {
        return Some(Line::Map);
    }
    match line.split_once(' ')? {
        ("make", text) => Some(Line::Welcome(text)),
        ("take", text) => Some(Line::News(text)),
        _ => None,
    }
}
