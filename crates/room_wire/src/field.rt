//! The fields of messages.
ghost use Rattle.std.specs.Prelude.{◌≡◌};
ghost use Rattle.room_wire.specs.Fields.{field_text};

/// A field of a message, of a welcome or of news.
#[derive(Clone, Copy, Debug, PartialEq, Eq)]
pub enum Field {
    /// The name of an element.
    El,
    /// The names of elements.
    Els,
    /// A node's latitude.
    Lat,
    /// A node's longitude.
    Lon,
    /// A way's nodes.
    Nodes,
    /// A relation's members.
    Members,
    /// An element's tags, or the values that a retag gives to keys.
    Tags,
    /// The distance of a move to the north.
    Dlat,
    /// The distance of a move to the east.
    Dlon,
    /// The position at which a way is split or unglued.
    At,
    /// The name of the way that a split makes, or of the node that an unglue makes.
    Into,
    /// The name of the element that a join or a merge takes in.
    With,
    /// The actions of a group.
    Actions,
    /// The number of an entry.
    Seq,
    /// How many entries the author of an edit had seen.
    Since,
    /// The name of a room.
    Room,
    /// The name of an author.
    Name,
    /// The answer in a reply.
    Ok,
    /// The elements of a map.
    Map,
    /// The content of news.
    News,
    /// The author of the entry.
    By,
    /// The names that an entry changed, with their elements.
    Rows,
}

impl Field {
    /// Returns the key under which a message has the field. A reply about a bad field shows the key, too.
    pub fn as_str(self) -> &'static str
        ensures { result.now ≡ field_text self }
    {
        match self {
            Field::El => "el",
            Field::Els => "els",
            Field::Lat => "lat",
            Field::Lon => "lon",
            Field::Nodes => "nodes",
            Field::Members => "members",
            Field::Tags => "tags",
            Field::Dlat => "dlat",
            Field::Dlon => "dlon",
            Field::At => "at",
            Field::Into => "into",
            Field::With => "with",
            Field::Actions => "actions",
            Field::Seq => "seq",
            Field::Since => "since",
            Field::Room => "room",
            Field::Name => "name",
            Field::Ok => "ok",
            Field::Map => "map",
            Field::News => "news",
            Field::By => "by",
            Field::Rows => "rows",
        }
    }
}
