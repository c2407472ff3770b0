//! Writing replies.
ghost use Rattle.std.specs.Prelude.{◌≡◌, ◌∷◌, T, Some, codes, map, IfOk, OnOk};
ghost use Rattle.serde_json.specs.Data.{object, string, member};
ghost use Rattle.serde_json.specs.Read.{read};
ghost use Rattle.serde_json.specs.Written.{compact_text};
ghost use Rattle.room_interface.specs.Prelude.{is_lt, Global, is_sorted, text_cmp};
ghost use Rattle.room_wire.specs.Inner.Writing.{Tells, members_of, shown_tree, under_tree};
ghost use Rattle.room_wire.specs.Trees.{tree_of, outcome_tree, fault_tree, refusal_members, ok_tree, no_tree, bare, about, bad_field, whole, with_action, with_position};

use crate::answer::Answer;
use crate::bad::Fault;
use crate::field::Field;
use crate::json_text::Json;
use crate::shown::Shown;
use crate::told::{write_object, write_object_from};
use json::Writer;
use osm_elements::Memory;
use osm_elements::name::Name;
use osm_elements::text::Text;
use room_interface::refusal::Refusal;
use room_interface::reply::Reply;
use std::alloc::Global;

/// Returns the text of the reply to the message with this id: `{"id":ID,"ok":O}` if the message was accepted, and
/// `{"id":ID,"no":N}` if it was refused. For a message whose id was not read, the id is 0.
///
/// It is the compact text of a JSON tree (RFC 8259): without spaces, the keys of each object in the order of their
/// bytes, whole numbers in decimal, and strings with `serde_json`'s escapes.
///
/// | Answer or reply | O |
/// |---|---|
/// | `Done` | `{"seq":SEQ}` |
/// | `Undid` | `{"seq":SEQ,"undid":OF}` |
/// | `Redid` | `{"redid":OF,"seq":SEQ}` |
/// | `Is` | `{"is":ELEMENT}` |
/// | `Map` | `{"map":[ELEMENT,..],"seq":FRONT}`, in the order of the rows |
/// | `Undos` | `{"redo":[REDO,..],"undos":[UNDO,..]}`, each in its order |
///
/// | Answer, reply, refusal or fault | N |
/// |---|---|
/// | `Absent`, `Present`, `WrongKind`, `Same`, `OutOfRange`, `TooFew`, `TooMany` | `{"el":NAME,"why":WHY}` |
/// | `InUse` | `{"by":USER,"el":NAME,"why":"in_use"}` |
/// | `TagConflict` | `{"key":KEY,"why":"tag_conflict"}` |
/// | `Repeat` | `{"seq":SEQ,"why":"repeat"}` |
/// | `Conflict` | `{"at":SHARED,"why":"conflict","with":BLOCKER}` |
/// | `Changed` | `{"el":NAME,"why":"changed","with":WITH}` |
/// | `BadField` | `{"field":FIELD,"why":"bad_field"}` |
/// | every other | `{"why":WHY}` |
/// | one of an action of a group | as without a group, with `"action":POSITION` as the first member |
///
/// WHY is the name in snake case, for example `wrong_kind`. A node is
/// `{"el":NAME,"lat":TEXT,"lon":TEXT,"tags":{..}}`, a way is `{"el":NAME,"nodes":[ID,..],"tags":{..}}`, and a relation
/// is `{"el":NAME,"members":[[NAME,ROLE],..],"tags":{..}}` (OpenStreetMap wiki, "Elements").
///
/// The time is linear in the length of the reply. The text is written sequentially, without a tree in memory.
///
/// # Errors
///
/// `Memory`, if an allocation fails.
pub fn reply_text(alloc: Global, id: u64, answer: &Answer<'_>) -> Result<Json, Memory>
    ensures text { IfOk result (λ json. json ≡ compact_text (tree_of id answer.now)) }
    // Any reader of JSON reads the text as this tree.
    ensures reads_back { IfOk result (λ json. read json ≡ Some (tree_of id answer.now)) }
{
    let mut out = Json::begin(alloc)?;
    write_reply(&mut out, id, answer)?;
    Ok(Json::from_writer(out))
}

// Writes a reply.
fn write_reply(out: &mut Writer, id: u64, answer: &Answer<'_>) -> Result<(), Memory>
    ensures { OnOk result (Tells out.old out.new (tree_of id answer.now)) }
{
    match *answer {
        Answer::Reply(reply) => write_outcome(out, id, reply),
        Answer::Is { name, element } => answered(out, id, &[("is", Shown::Element(name, element))]),
        Answer::Absent(name) => about(out, id, None, name, "absent"),
        Answer::Map { rows, front } => answered(
            out,
            id,
            &[("map", Shown::Rows(rows)), ("seq", Shown::Number(front))],
        ),
        Answer::Undos { undos, redos } => answered(
            out,
            id,
            &[
                ("redo", Shown::Numbers(redos)),
                ("undos", Shown::Numbers(undos)),
            ],
        ),
        Answer::Memory => bare(out, id, None, "memory"),
        Answer::Fault(fault) => write_fault(out, id, fault),
        Answer::BadLine => bare(out, id, None, "bad_line"),
        Answer::NoHello => bare(out, id, None, "no_hello"),
        Answer::NoRoom => bare(out, id, None, "no_room"),
        Answer::HelloTwice => bare(out, id, None, "hello_twice"),
        Answer::WrongName(name) => why(
            out,
            id,
            None,
            &[
                ("name", Shown::Text(name)),
                ("why", Shown::Text("wrong_name")),
            ],
        ),
        Answer::NoName => bare(out, id, None, "no_name"),
    }
}

// Writes a room's reply to a change, an undo or a redo.
fn write_outcome(out: &mut Writer, id: u64, reply: &Reply<Global>) -> Result<(), Memory>
    ensures { OnOk result (Tells out.old out.new (outcome_tree id reply.now)) }
{
    match reply {
        Reply::Done { seq } => answered(out, id, &[("seq", Shown::Number(*seq))]),
        Reply::Undid { seq, of } => answered(
            out,
            id,
            &[("seq", Shown::Number(*seq)), ("undid", Shown::Number(*of))],
        ),
        Reply::Redid { seq, of } => answered(
            out,
            id,
            &[("redid", Shown::Number(*of)), ("seq", Shown::Number(*seq))],
        ),
        Reply::Repeat { seq } => why(
            out,
            id,
            None,
            &[("seq", Shown::Number(*seq)), ("why", Shown::Text("repeat"))],
        ),
        Reply::Full => bare(out, id, None, "full"),
        Reply::NothingToUndo => bare(out, id, None, "nothing_to_undo"),
        Reply::NoSuch => bare(out, id, None, "no_such"),
        Reply::NotYours => bare(out, id, None, "not_yours"),
        Reply::NotStanding => bare(out, id, None, "not_standing"),
        Reply::Conflict { blocker, shared } => conflict(out, id, *blocker, *shared),
        Reply::NothingToRedo => bare(out, id, None, "nothing_to_redo"),
        Reply::Refused(refusal) => write_refusal(out, id, refusal.action, &refusal.why),
        Reply::Changed { with, name } => changed(out, id, *with, *name),
        Reply::Memory => bare(out, id, None, "memory"),
    }
}

// Writes that an entry changed what the author of an edit had not seen.
fn changed(out: &mut Writer, id: u64, with: u64, name: Name) -> Result<(), Memory>
    ensures { OnOk result (Tells out.old out.new (outcome_tree {A = Global} id (Reply.Changed with name))) }
{
    why(
        out,
        id,
        None,
        &[
            ("el", Shown::Name(name)),
            ("why", Shown::Text("changed")),
            ("with", Shown::Number(with)),
        ],
    )
}

// Writes that a later entry blocks an undo.
fn conflict(out: &mut Writer, id: u64, blocker: u64, shared: Name) -> Result<(), Memory>
    ensures { OnOk result (Tells out.old out.new (outcome_tree {A = Global} id (Reply.Conflict blocker shared))) }
{
    why(
        out,
        id,
        None,
        &[
            ("at", Shown::Name(shared)),
            ("why", Shown::Text("conflict")),
            ("with", Shown::Number(blocker)),
        ],
    )
}

// Writes the refusal of an edit, with the position of the action in its group, if any.
fn write_refusal(
    out: &mut Writer,
    id: u64,
    action: Option<u32>,
    refusal: &Refusal<Global>,
) -> Result<(), Memory>
    ensures { OnOk result (Tells out.old out.new (no_tree id (with_position action (refusal_members refusal.now)))) }
{
    match refusal {
        Refusal::Absent(name) => about(out, id, action, *name, "absent"),
        Refusal::Present(name) => about(out, id, action, *name, "present"),
        Refusal::WrongKind(name) => about(out, id, action, *name, "wrong_kind"),
        Refusal::Same(name) => about(out, id, action, *name, "same"),
        Refusal::BadPosition => bare(out, id, action, "bad_position"),
        Refusal::NotEndToEnd => bare(out, id, action, "not_end_to_end"),
        Refusal::OutOfRange(name) => about(out, id, action, *name, "out_of_range"),
        Refusal::TooFew(name) => about(out, id, action, *name, "too_few"),
        Refusal::TooMany(name) => about(out, id, action, *name, "too_many"),
        Refusal::InUse(name, user) => why(
            out,
            id,
            action,
            &[
                ("by", Shown::Name(*user)),
                ("el", Shown::Name(*name)),
                ("why", Shown::Text("in_use")),
            ],
        ),
        Refusal::TagConflict(key) => tag_conflict(out, id, action, key),
        Refusal::Nothing => bare(out, id, action, "nothing"),
        Refusal::Memory => bare(out, id, action, "memory"),
    }
}

// Writes the fault of a message.
fn write_fault(out: &mut Writer, id: u64, fault: Fault) -> Result<(), Memory>
    ensures { OnOk result (Tells out.old out.new (fault_tree id fault)) }
{
    match fault {
        Fault::NotJson => bare(out, id, None, "not_json"),
        Fault::NotObject => bare(out, id, None, "not_object"),
        Fault::BadId => bare(out, id, None, "bad_id"),
        Fault::UnknownDo => bare(out, id, None, "unknown_do"),
        Fault::BadField(field) => bad_field(out, id, None, field),
        Fault::UnknownAction { action } => bare(out, id, Some(action), "unknown_do"),
        Fault::BadActionField { action, field } => bad_field(out, id, Some(action), field),
        Fault::Memory => bare(out, id, None, "memory"),
    }
}

// Writes the reply to a message that was accepted, with these members, whose keys rise.
pub fn answered(out: &mut Writer, id: u64, members: &[(&str, Shown<'_>)]) -> Result<(), Memory>
    requires { T (is_sorted text_cmp (map (λ m. (m.0.now, shown_tree m.1)) members.now)) }
    ensures { OnOk result
        (Tells out.old out.new (ok_tree id (members_of (map (λ m. (m.0.now, shown_tree m.1)) members.now)))) }
{
    under(out, id, "ok", members)
}

// Writes a refusal that names a key of tags.
fn tag_conflict(
    out: &mut Writer,
    id: u64,
    action: Option<u32>,
    key: &Text<Global>,
) -> Result<(), Memory>
    ensures { OnOk result (Tells out.old out.new
        (no_tree id (with_position action (member (codes "key") (string key.now) (bare (codes "tag_conflict")))))) }
{
    why(
        out,
        id,
        action,
        &[
            ("key", Shown::Text(key.as_str())),
            ("why", Shown::Text("tag_conflict")),
        ],
    )
}

// Writes a refusal that names a field.
fn bad_field(out: &mut Writer, id: u64, action: Option<u32>, field: Field) -> Result<(), Memory>
    ensures { OnOk result (Tells out.old out.new (no_tree id (with_position action (bad_field field)))) }
{
    why(
        out,
        id,
        action,
        &[
            ("field", Shown::Text(field.as_str())),
            ("why", Shown::Text("bad_field")),
        ],
    )
}

// Writes a refusal that shows only its reason.
fn bare(out: &mut Writer, id: u64, action: Option<u32>, reason: &str) -> Result<(), Memory>
    ensures { OnOk result (Tells out.old out.new (no_tree id (with_position action (bare reason.now)))) }
{
    why(out, id, action, &[("why", Shown::Text(reason))])
}

// Writes a refusal that names an element.
fn about(
    out: &mut Writer,
    id: u64,
    action: Option<u32>,
    name: Name,
    reason: &str,
) -> Result<(), Memory>
    ensures { OnOk result (Tells out.old out.new (no_tree id (with_position action (about name reason.now)))) }
{
    why(
        out,
        id,
        action,
        &[("el", Shown::Name(name)), ("why", Shown::Text(reason))],
    )
}

// Writes a refusal with these members, whose keys rise and come after `action`.
fn why(
    out: &mut Writer,
    id: u64,
    action: Option<u32>,
    members: &[(&str, Shown<'_>)],
) -> Result<(), Memory>
    requires { T (is_sorted text_cmp ((codes "action", whole 0) ∷ map (λ m. (m.0.now, shown_tree m.1)) members.now)) }
    ensures { OnOk result (Tells out.old out.new
        (no_tree id (with_position action (members_of (map (λ m. (m.0.now, shown_tree m.1)) members.now))))) }
{
    match action {
        None => under(out, id, "no", members),
        Some(action) => at_action(out, id, action.into(), members),
    }
}

// Writes a refusal with the position of an action, and these members, whose keys rise and come after `action`.
fn at_action(
    out: &mut Writer,
    id: u64,
    position: u64,
    members: &[(&str, Shown<'_>)],
) -> Result<(), Memory>
    requires { T (is_sorted text_cmp ((codes "action", whole 0) ∷ map (λ m. (m.0.now, shown_tree m.1)) members.now)) }
    ensures { OnOk result (Tells out.old out.new
        (no_tree id (with_action position (members_of (map (λ m. (m.0.now, shown_tree m.1)) members.now))))) }
{
    out.begin_object()?;
    out.key("id")?;
    out.u64(id)?;
    out.key("no")?;
    write_object_from(out, &("action", Shown::Number(position)), members)?;
    out.end_object()?;
    Ok(())
}

// Writes an object with an id and, under a word that comes after `id`, an object of these members, whose keys rise.
fn under(out: &mut Writer, id: u64, word: &str, members: &[(&str, Shown<'_>)]) -> Result<(), Memory>
    requires word { T (is_lt (text_cmp (codes "id") word.now)) }
    requires rising { T (is_sorted text_cmp (map (λ m. (m.0.now, shown_tree m.1)) members.now)) }
    ensures { OnOk result (Tells out.old out.new
        (under_tree id word.now (object (members_of (map (λ m. (m.0.now, shown_tree m.1)) members.now))))) }
{
    out.begin_object()?;
    out.key("id")?;
    out.u64(id)?;
    out.key(word)?;
    write_object(out, members)?;
    out.end_object()?;
    Ok(())
}
