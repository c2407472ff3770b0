//! Reading news.
ghost use Rattle.std.specs.Prelude.{◌≡◌, ◌<◌, length, IfErr};
ghost use Rattle.serde_json.specs.Read.{read};
ghost use Rattle.json_values.specs.Views.{view};
ghost use Rattle.room_wire.specs.declared.bad.Fault.TheVariants.{Memory};
ghost use Rattle.room_wire.specs.News.{is_gone, news_row_at, news_told, number_at, spells_news, told_at};
ghost use Rattle.room_wire.specs.Reading.{Gives, GivesUnder};

use crate::bad::{Bad, Fault};
use crate::field::Field;
use crate::fields::value_at;
use crate::forms::{author_at, el_of, object_at};
use crate::listed::{Listed, rows_of};
use crate::numbers::ordinal;
use crate::read::parse;
use json_values::{Scratch, Value, look};
use osm_elements::map::Row;
use room_interface::news::{News, NewsRow, NewsRows};
use std::alloc::Global;

/// Reads a JSON text as news (RFC 8259), or returns its first fault, under the id 0.
///
/// The text is an object with the member `news`, an object with these members:
///
/// - `by`: a string of 1 to 32 characters of `a-z`, `0-9` and `_`
/// - `rows`: an array whose names rise. A row whose `gone` is `true` has a name in `el`. Any other row is an element
///   with the fields of a `create`, of which `tags` may be missing
/// - `seq`: a whole number in `1..=9007199254740991`
///
/// Other members are ignored.
///
/// # Errors
///
/// - `NotJson`, if the text is not JSON that nests at most 127 deep.
/// - `NotObject`, if it is not an object.
/// - `BadField` with the first of `news`, `by`, `rows` and `seq` that is missing or malformed. A fault inside a row is
///   a fault of `rows`.
/// - `Memory` instead of any other result, if an allocation fails.
pub fn read_news(alloc: Global, text: &str) -> Result<News<Global>, Bad>
    ensures exact { GivesUnder (λ _. 0) result (spells_news text.now) }
    ensures memory { IfErr result (λ bad. bad.fault ≡ Memory → 0 < length text.now) }
{
    match news_in(alloc, text) {
        Ok(news) => Ok(news),
        Err(fault) => Err(Bad::unread(fault)),
    }
}

// Reads a text as news.
fn news_in(alloc: Global, text: &str) -> Result<News<Global>, Fault>
    ensures exact { Gives result (news_told (read text.now)) }
    ensures memory { IfErr result (λ f. f ≡ Memory → 0 < length text.now) }
{
    let mut scratch = Scratch::new(alloc);
    let message = parse(alloc, text, &mut scratch)?;
    let told = object_at(&message, Field::News)?;
    told_of(alloc, told)
}

// Reads an object as the content of news.
fn told_of(alloc: Global, told: &Value<'_>) -> Result<News<Global>, Fault>
    ensures { Gives result (told_at (view told.now)) }
{
    let author = author_at(told, Field::By)?;
    let rows = rows_of::<NewsRow<Global>>(alloc, Field::Rows, told)?;
    let seq = number_of(told)?;
    let rows = NewsRows::from_vec(rows);
    Ok(News { seq, author, rows })
}

// Reads the number of an entry.
fn number_of(told: &Value<'_>) -> Result<u64, Fault>
    ensures { result ≡ number_at (view told.now) }
{
    value_at(told, Field::Seq)
        .and_then(ordinal)
        .ok_or(Fault::BadField(Field::Seq))
}

// A row of news is a changed name with its current element, or gone.
impl Listed for NewsRow<Global> {
    ghost reads = { news_row_at };

    fn read(alloc: Global, item: &Value<'_>) -> Result<NewsRow<Global>, Fault> {
        if is_gone(item) {
            let name = el_of(item)?;
            let element = None;
            return Ok(NewsRow { name, element });
        }
        let Row { name, element } = Row::<Global>::read(alloc, item)?;
        let element = Some(element);
        Ok(NewsRow { name, element })
    }
}

// Returns whether a row is gone.
fn is_gone(item: &Value<'_>) -> bool
    ensures { result ≡ is_gone (view item.now) }
{
    look::field(item, "gone")
        .and_then(look::boolean)
        .unwrap_or(false)
}
