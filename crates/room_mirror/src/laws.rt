//! Laws of mirrors. Each law is the contract of an empty function.
ghost use Rattle.std.specs.Prelude.{◌≡◌, ◌≤◌, ◌<◌, ◌-◌, ℕ, true, List, Ok, Some, All, length, take};
ghost use Rattle.serde_json.specs.Read.{read};
ghost use Rattle.room_history.specs.Prelude.{Global, is_sound, Rows, names_of, AreInOrder, IsJournal, news, mapof, answer, is_by, numbered, Differ, Cell, RoomState, Answers, IsStep};
ghost use Rattle.room_wire.specs.Prelude.{AreNews, IsWelcome, HasId, spells_welcome, welcome_tree, IsNumber};
ghost use Rattle.room_interface.specs.declared.call.Call.{Call};
ghost use Rattle.room_interface.specs.declared.call.Request.TheVariants.{Do};
ghost use Rattle.room_interface.specs.declared.edit.Edit.{Edit};
ghost use Rattle.osm_changes.specs.Cells.{half_at};
ghost use Rattle.room_history.specs.declared.entry.Entry.{Entry};
ghost use Rattle.room_interface.specs.declared.news.News.{News};
ghost use Rattle.room_interface.specs.declared.reply.Reply.{Reply};
ghost use Rattle.room_interface.specs.declared.reply.Reply.TheVariants.{Done};
ghost use Rattle.room_mirror.specs.Clients.{IsBrought, IsBroughtCall, IsReadBack, SpellNews, mirror_made, welcome_to};
ghost use Rattle.room_mirror.specs.Mirrors.{mirror_of, taken_in_turn};

use room_history::laws::{entries_change_their_maps, journals_begin, journals_hold};
use room_wire::laws::{a_welcome_is_read_back, news_are_read_back};
use std::alloc::{Allocator, Global};

/// The rows of a room on a sound base are in name order, so a mirror can be made from them.
pub fn a_room_can_be_mirrored<A: Allocator>()
    ensures { (base : Rows A) (limit : ℕ) (j : List (Entry A)) → is_sound base ≡ true → IsJournal base limit j
        → AreInOrder (mapof base j) }
{
    journals_hold::<A>();
}

/// A mirror has the map of a room's first `a` entries, and takes the news from `a + 1` to `b`, each once and in order.
/// It refuses none of them, and then has the map of the first `b` entries.
pub fn mirrors_follow<A: Allocator>()
    ensures { (base : Rows A) (limit : ℕ) (j : List (Entry A)) (a b : ℕ) → is_sound base ≡ true → IsJournal base limit j
        → a ≤ b → b ≤ length j
        → taken_in_turn (mirror_of base j a) (take (b - a) (news base j a)) ≡ Ok (mirror_of base j b) }
{
    entries_change_their_maps::<A>();
}

/// A client can read a room's texts: the news of each entry after the first `a` are as [`news_are_read_back`] requires,
/// and a welcome after `a` entries is as [`a_welcome_is_read_back`] requires. So each text with the tree of these news
/// or of this welcome, such as the texts that a session writes, is read as the same value.
///
/// The names of the base and of the actions' subjects have ids that fit an `i64`, as in messages. A contract's id is
/// any whole number, and an accepted action creates no other ids. The entries' authors have authors' names. The journal
/// has at most 2^53 - 1 entries, because greater numbers are not read back.
pub fn a_rooms_texts_are_read_back()
    ensures news { (base : Rows Global) (limit : ℕ) (j : List (Entry Global)) (a : ℕ) → is_sound base ≡ true
        → IsJournal base limit j → All HasId (names_of base) → All IsBrought j → length j ≤ 9007199254740991
        → All (λ (n : News Global). AreNews n) (news base j a) }
    ensures welcome { (base : Rows Global) (limit : ℕ) (j : List (Entry Global)) (id a : ℕ) → is_sound base ≡ true
        → IsJournal base limit j → All HasId (names_of base) → All IsBrought j → length j ≤ 9007199254740991
        → IsNumber id → a ≤ length j → IsWelcome (welcome_to id base j a) }
    ensures news_text { (base : Rows Global) (limit : ℕ) (j : List (Entry Global)) (a : ℕ) → is_sound base ≡ true
        → IsJournal base limit j → All HasId (names_of base) → All IsBrought j → length j ≤ 9007199254740991
        → All IsReadBack (news base j a) }
    ensures welcome_text { (base : Rows Global) (limit : ℕ) (j : List (Entry Global)) (id a : ℕ) (text : List ℕ)
        → is_sound base ≡ true → IsJournal base limit j → All HasId (names_of base) → All IsBrought j
        → length j ≤ 9007199254740991 → IsNumber id → a ≤ length j
        → read text ≡ Some (welcome_tree (welcome_to id base j a))
        → spells_welcome text ≡ Ok (welcome_to id base j a) }
{
    journals_hold::<Global>();
    journals_begin::<Global>();
    entries_change_their_maps::<Global>();
    a_welcome_is_read_back();
    news_are_read_back();
}

/// A client reads the text of a welcome to a room after `a` entries, and then the text of the news of each entry from
/// `a + 1` to `b`, in order. No text is refused, and the client's mirror then has the room's map after `b` entries.
///
/// Each text can be any text with the tree of the welcome or the news, such as the texts that a session writes. The
/// premises on ids, authors and the number of entries are those of [`a_rooms_texts_are_read_back`].
pub fn a_client_has_the_rooms_map()
    ensures { (base : Rows Global) (limit : ℕ) (j : List (Entry Global)) (id a b : ℕ) (welcome : List ℕ)
        (texts : List (List ℕ))
        → is_sound base ≡ true → IsJournal base limit j
        → All HasId (names_of base) → All IsBrought j → length j ≤ 9007199254740991 → IsNumber id → a ≤ b → b ≤ length j
        → read welcome ≡ Some (welcome_tree (welcome_to id base j a)) → SpellNews texts (take (b - a) (news base j a))
        → mirror_made welcome texts ≡ Some (mirror_of base j b) }
{
    a_rooms_texts_are_read_back();
    mirrors_follow::<Global>();
}

/// A client's mirror has the map of a room's first `n` entries. The client sends an edit that says so, and the room
/// accepts it, while the author has no later entries. Then the client knew what it overwrote: each part of an element
/// that the edit changes was, right before, as the mirror has it.
pub fn a_client_knows_what_it_overwrites<A: Allocator>()
    ensures { (base : Rows A) (limit : ℕ) (j : List (Entry A)) (c : Call A) (edit : Edit A) (n seq : ℕ)
        → is_sound base ≡ true → IsJournal base limit j
        → c.request ≡ Do edit (Some n) → (answer base limit j c).0 ≡ Done seq
        → ((s : ℕ) → n < s → is_by c.author (numbered j s) ≡ true → ⊥)
        → (x : Cell) → Differ (mapof base (answer base limit j c).1) (mapof base j) x
        → half_at (mapof base j) x ≡ half_at (mirror_of base j n).rows x }
{
    journals_hold::<A>();
}

/// If the names of the base and of the actions' subjects have ids that fit an `i64`, so do the names of the room's map.
pub fn actions_create_no_other_ids()
    ensures { (base : Rows Global) (limit : ℕ) (j : List (Entry Global)) → is_sound base ≡ true → IsJournal base limit j
        → All HasId (names_of base) → All IsBrought j → All HasId (names_of (mapof base j)) }
{
    journals_hold::<Global>();
}

/// If calls can come from messages, so can the entries that they append: after each step of a room, and after a run
/// from an empty journal. The journal is then one to which calls lead. So it meets the premises of
/// [`a_rooms_texts_are_read_back`] and [`a_client_has_the_rooms_map`] on journals and entries.
///
/// Every call that a program makes can come from a message, because its types keep what that needs:
/// [`call_is_brought`](crate::brought::call_is_brought).
pub fn calls_bring_their_entries()
    ensures step { (base : Rows Global) (limit : ℕ) (j k : List (Entry Global)) (c : Call Global) (reply : Reply Global)
        → IsJournal base limit j → All IsBrought j → IsBroughtCall c → IsStep base limit j c reply k
        → IsJournal base limit k × All IsBrought k }
    ensures run { (base : Rows Global) (limit : ℕ) (calls : List (Call Global)) (room : RoomState Global)
        (replies : List (Reply Global)) → All IsBroughtCall calls → Answers base limit calls room replies
        → IsJournal base limit room.journal × All IsBrought room.journal }
{}
