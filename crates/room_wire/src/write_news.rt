//! Writing news and welcomes.
ghost use Rattle.std.specs.Prelude.{◌≡◌, Some, IfOk, OnOk};
ghost use Rattle.serde_json.specs.Read.{read};
ghost use Rattle.serde_json.specs.Written.{compact_text};
ghost use Rattle.room_wire.specs.Inner.Writing.{Tells};
ghost use Rattle.room_wire.specs.News.{news_tree, told_tree};
ghost use Rattle.room_wire.specs.Welcomes.{welcome_tree};

use crate::answer::Answer;
use crate::json_text::Json;
use crate::shown::Shown;
use crate::told::write_object;
use crate::welcome::Welcome;
use crate::write::reply_text;
use json::Writer;
use osm_elements::Memory;
use room_interface::news::News;
use std::alloc::Global;

/// Returns the text of news: `{"news":{"by":AUTHOR,"rows":[ROW,..],"seq":SEQ}}`, with the rows in order.
///
/// It is the compact text of a JSON tree (RFC 8259), like a reply. A row that is gone is `{"el":NAME,"gone":true}`. Any
/// other row is its element, as [`reply_text`](crate::reply_text) writes it. The time is linear in the length of the
/// text.
///
/// # Errors
///
/// `Memory`, if an allocation fails.
pub fn news_text(alloc: Global, news: &News<Global>) -> Result<Json, Memory>
    ensures text { IfOk result (λ json. json ≡ compact_text (news_tree news.now)) }
    // Any reader of JSON reads the text as this tree.
    ensures reads_back { IfOk result (λ json. read json ≡ Some (news_tree news.now)) }
{
    let mut out = Json::begin(alloc)?;
    write_news(&mut out, news)?;
    Ok(Json::from_writer(out))
}

/// Returns the text of a welcome: `{"id":ID,"ok":{"map":[ELEMENT,..],"seq":SEQ}}`. It is the text of the reply to a
/// `map` with the welcome's elements and number, as [`reply_text`](crate::reply_text) writes it.
///
/// The time is linear in the length of the text.
///
/// # Errors
///
/// `Memory`, if an allocation fails.
pub fn welcome_text(alloc: Global, welcome: &Welcome) -> Result<Json, Memory>
    ensures text { IfOk result (λ json. json ≡ compact_text (welcome_tree welcome.now)) }
    // Any reader of JSON reads the text as this tree.
    ensures reads_back { IfOk result (λ json. read json ≡ Some (welcome_tree welcome.now)) }
{
    let map = Answer::Map {
        rows: &welcome.rows,
        front: welcome.seq,
    };
    reply_text(alloc, welcome.id, &map)
}

// Writes news.
fn write_news(out: &mut Writer, news: &News<Global>) -> Result<(), Memory>
    ensures { OnOk result (Tells out.old out.new (news_tree news.now)) }
{
    out.begin_object()?;
    out.key("news")?;
    write_told(out, news)?;
    out.end_object()?;
    Ok(())
}

// Writes the author, the changed names and the number of the entry.
fn write_told(out: &mut Writer, news: &News<Global>) -> Result<(), Memory>
    ensures { OnOk result (Tells out.old out.new (told_tree news.now)) }
{
    write_object(
        out,
        &[
            ("by", Shown::Text(news.author.as_str())),
            ("rows", Shown::News(&news.rows)),
            ("seq", Shown::Number(news.seq)),
        ],
    )
}
