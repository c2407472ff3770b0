//! The result of a line.
use crate::mirrors::line::{Line, read};
use osm_elements::Memory;
use room_interface::news::{News, NewsRows};
use room_mirror::fault::MirrorFault;
use room_mirror::mirror::Mirror;
use room_wire::bad::Bad;
use room_wire::json_text::Json;
use room_wire::welcome::Welcome;
use room_wire::{read_news, read_welcome, welcome_text};
use std::alloc::Global;
use std::fmt::{self, Display, Formatter};
use thiserror::Error;

// The id of the welcome with the map.
const ID: u64 = 1;

/// The result of a line.
#[derive(Drop)]
pub enum Told {
    /// The number of the mirror's last entry.
    Number(u64),
    /// The mirror's map, as the text of a welcome.
    Map(Json),
}

impl Display for Told {
    fn fmt<W: fmt::Write>(&self, f: &mut Formatter<W>) -> fmt::Result {
        match self {
            Told::Number(seq) => write!(f, "{seq}"),
            Told::Map(text) => f.write_str(text.as_str()),
        }
    }
}

/// The reason for which a line did nothing.
#[derive(Debug, Drop, Error)]
pub enum Refused {
    /// The line has none of the known forms.
    #[error("the line says nothing known")]
    Unknown,
    /// There was no welcome yet.
    #[error("there is no mirror")]
    NoMirror,
    /// The text is not a welcome or not news.
    #[error("{0}")]
    Text(Bad),
    /// The mirror did not take the news.
    #[error("{0}")]
    News(MirrorFault),
    /// An allocation failed.
    #[error("out of memory")]
    Memory,
}

impl From<Memory> for Refused {
    fn from(_memory: Memory) -> Refused {
        Refused::Memory
    }
}

/// Gives a mirror the text of a line, and returns the result. After a refusal the mirror is unchanged.
pub fn tell(
    alloc: Global,
    mirror: &mut Option<Mirror<Global>>,
    line: &str,
) -> Result<Told, Refused> {
    match read(line) {
        Some(Line::Welcome(text)) => {
            let made = made(alloc, text)?;
            let seq = made.seq();
            *mirror = Some(made);
            Ok(Told::Number(seq))
        }
        Some(Line::News(text)) => take(alloc, mirror.as_mut().ok_or(Refused::NoMirror)?, text),
        Some(Line::Map) => map(alloc, mirror.as_ref().ok_or(Refused::NoMirror)?),
        None => Err(Refused::Unknown),
    }
}

// Makes a mirror from the text of a welcome.
fn made(alloc: Global, text: &str) -> Result<Mirror<Global>, Refused> {
    let welcome = read_welcome(alloc, text).map_err(Refused::Text)?;
    Ok(Mirror::from_welcome(alloc, welcome)?)
}

// Gives a mirror a copy of the news in a text.
fn take(alloc: Global, mirror: &mut Mirror<Global>, text: &str) -> Result<Told, Refused> {
    let news = read_news(alloc, text).map_err(Refused::Text)?;
    mirror.take(&copied(alloc, &news)?).map_err(Refused::News)?;
    Ok(Told::Number(mirror.seq()))
}

// Copies news, row by row.
fn copied(alloc: Global, news: &News<Global>) -> Result<News<Global>, Memory> {
    let mut rows = Vec::new(alloc);
    for row in news.rows.as_slice() {
        rows.push(row.copy()?)?;
    }
    Ok(News {
        seq: news.seq,
        author: news.author,
        rows: NewsRows::from_vec(rows).copy()?,
    })
}

// Returns the map of a mirror as a welcome.
fn map(alloc: Global, mirror: &Mirror<Global>) -> Result<Told, Refused> {
    let welcome = Welcome {
        id: ID,
        seq: mirror.seq(),
        rows: mirror.map().rows(alloc)?,
    };
    Ok(Told::Map(welcome_text(alloc, &welcome)?))
}
