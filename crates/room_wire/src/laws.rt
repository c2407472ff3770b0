//! Laws about the definitions, each the contract of a function that does nothing.
ghost use Rattle.std.specs.Prelude.{◌≡◌, ◌≢◌, ◌≤◌, ◌↔◌, List, ℕ, None, Some, Ok, Err, IfErr, IfOk, IsOk, is_some, true};
ghost use Rattle.serde_json.specs.Data.{Data};
ghost use Rattle.serde_json.specs.Find.{as_object};
ghost use Rattle.serde_json.specs.Read.{read};
ghost use Rattle.room_interface.specs.Prelude.{Global, kind_of};
ghost use Rattle.osm_elements.specs.declared.name.Name.{Name};
ghost use Rattle.osm_elements.specs.declared.element.Element.{Element};
ghost use Rattle.room_interface.specs.declared.action.Action.TheVariants.{Create};
ghost use Rattle.room_interface.specs.declared.news.News.{News};
ghost use Rattle.room_wire.specs.declared.welcome.Welcome.{Welcome};
ghost use Rattle.room_wire.specs.News.{news_tree, spells_news};
ghost use Rattle.room_wire.specs.Made.{is_made_body};
ghost use Rattle.room_wire.specs.NewsBack.{AreNews, IsWelcome};
ghost use Rattle.room_wire.specs.Welcomes.{spells_welcome, welcome_tree};
ghost use Rattle.room_wire.specs.declared.bad.Fault.TheVariants.{BadActionField, BadField, BadId, Memory, NotJson, NotObject, UnknownAction, UnknownDo};
ghost use Rattle.room_wire.specs.declared.field.Field.{Field};
ghost use Rattle.room_wire.specs.ReadBack.{HasId, IsWhole};
ghost use Rattle.room_wire.specs.Spelling.{spells, create_at, ordinal};
ghost use Rattle.room_wire.specs.Trees.{element_tree, whole};
ghost use Rattle.room_wire.specs.WellFormed.{AreGood, AreGoodActions, HasWord, IsFirstBad, IsFirstBadAction, IsMessage, MessageId, group_items, message_slots};
ghost use Rattle.room_wire.specs.Words.{Word};
ghost use Rattle.room_wire.specs.declared.incoming.Incoming.{Incoming};
ghost use Rattle.room_wire.specs.Examples.{reads_messages, tells_no_id, tells_an_id, writes_replies, writes_elements};
ghost use Rattle.room_wire.specs.NewsExamples.{writes_news, reads_news, tells_bad_news, reads_welcomes, tells_bad_welcomes};

/// On worked examples of messages, replies and elements, the definitions have the results that were worked out by hand.
pub fn examples_are_as_worked()
    ensures reads_messages { reads_messages }
    ensures tells_no_id { tells_no_id }
    ensures tells_an_id { tells_an_id }
    ensures writes_replies { writes_replies }
    ensures writes_elements { writes_elements }
{}

/// On worked examples of news and welcomes, the definitions have the results that were worked out by hand.
pub fn news_are_as_worked()
    ensures writes_news { writes_news }
    ensures reads_news { reads_news }
    ensures tells_bad_news { tells_bad_news }
    ensures reads_welcomes { reads_welcomes }
    ensures tells_bad_welcomes { tells_bad_welcomes }
{}

/// The members of a written element are read as a `create` of the same element under the same name. So a client can
/// send back what a room shows.
pub fn an_element_is_read_back()
    ensures { (name : Name) (element : Element Global) → HasId name → kind_of element ≡ name.kind
        → IsWhole element → create_at (element_tree name element) ≡ Ok (Create name element) }
{
    osm_coords::laws::latitude_is_read_back();
    osm_coords::laws::longitude_is_read_back();
}

/// Every text whose tree is that of news, for example the text that [`news_text`](crate::news_text) writes, is read as
/// the same news.
pub fn news_are_read_back()
    ensures { (text : List ℕ) (n : News Global) → read text ≡ Some (news_tree n) → AreNews n → spells_news text ≡ Ok n }
{
    osm_coords::laws::latitude_is_read_back();
    osm_coords::laws::longitude_is_read_back();
}

/// Every text whose tree is that of a welcome, for example the text that [`welcome_text`](crate::welcome_text) writes,
/// is read as the same welcome. So is the reply to a `map`.
pub fn a_welcome_is_read_back()
    ensures { (text : List ℕ) (w : Welcome) → read text ≡ Some (welcome_tree w) → IsWelcome w
        → spells_welcome text ≡ Ok w }
{
    osm_coords::laws::latitude_is_read_back();
    osm_coords::laws::longitude_is_read_back();
}

/// A whole number of a reply is read as the same number, if it can be the id of a message or the number of an entry.
pub fn a_number_is_read_back()
    ensures { (n : ℕ) → 1 ≤ n → n ≤ 9007199254740991 → ordinal (whole n) ≡ Some n }
{}

/// No text has the fault `Memory`.
#[tactic(auto, using(crate::proofs::NeverMemory::spells_is_never_memory))]
pub fn no_text_spells_memory()
    ensures { (text : List ℕ) → IfErr (spells text) (λ bad. bad.fault ≢ Memory) }
{}

/// Every text that is a well-formed message spells that message, in any order of its members and with any other
/// members.
pub fn a_message_spells_itself()
    ensures { (text : List ℕ) (d : Data) (message : Incoming) → read text ≡ Some d → IsMessage d message
        → spells text ≡ Ok message }
{}

/// If a text spells a message, its tree is well formed: it has the word and the fields of that message, and their
/// values are as their types require. So a text spells a message exactly if its tree is that of a message.
pub fn what_is_spelled_is_a_message()
    ensures { (text : List ℕ) (d : Data) (message : Incoming) → read text ≡ Some d → spells text ≡ Ok message
        → IsMessage d message }
{}

/// The values of a message that a text spells are as their types require: coordinates are in range, tags are in order
/// and within their limits, and the list of a way has nodes.
#[tactic(auto, using(crate::proofs::SpelledMade::spelled_is_made))]
pub fn what_is_spelled_is_made()
    ensures { (text : List ℕ) → IfOk (spells text) (λ message. is_made_body message.body ≡ true) }
{}

/// A text has each fault exactly if it should. The faults depend on the text's tree, then its id and its word. Then
/// comes the first field, in reading order, that is not well formed. Last comes the first action of a group that has no
/// word or such a field, with its position. Under the same premises, the text spells a message exactly if every field
/// and every action is well formed.
pub fn each_fault_is_told()
    ensures not_json { (text : List ℕ) → read text ≡ None → spells text ≡ Err (record { id = 0; fault = NotJson }) }
    ensures not_object { (text : List ℕ) (d : Data) → read text ≡ Some d → as_object d ≡ None
        → spells text ≡ Err (record { id = 0; fault = NotObject }) }
    ensures bad_id { (text : List ℕ) (d : Data) → read text ≡ Some d → is_some (as_object d) ≡ true
        → ((id : ℕ) → ¬ MessageId d id) → spells text ≡ Err (record { id = 0; fault = BadId }) }
    ensures unknown_do { (text : List ℕ) (d : Data) (id : ℕ) → read text ≡ Some d → MessageId d id
        → ((word : Word) → ¬ HasWord d word) → spells text ≡ Err (record { id = id; fault = UnknownDo }) }
    ensures bad_field { (text : List ℕ) (d : Data) (id : ℕ) (word : Word) (field : Field) → read text ≡ Some d
        → MessageId d id → HasWord d word
        → (spells text ≡ Err (record { id = id; fault = BadField field })) ↔ IsFirstBad (message_slots word d) field }
    ensures unknown_action { (text : List ℕ) (d : Data) (id : ℕ) (word : Word) (k : ℕ) → read text ≡ Some d
        → MessageId d id → HasWord d word → (spells text ≡ Err (record { id = id; fault = UnknownAction k }))
        ↔ (AreGood (message_slots word d) × IsFirstBadAction (group_items word d) k UnknownDo) }
    ensures bad_action_field { (text : List ℕ) (d : Data) (id : ℕ) (word : Word) (k : ℕ) (field : Field)
        → read text ≡ Some d → MessageId d id → HasWord d word
        → (spells text ≡ Err (record { id = id; fault = BadActionField k field }))
        ↔ (AreGood (message_slots word d) × IsFirstBadAction (group_items word d) k (BadField field)) }
    ensures well_formed { (text : List ℕ) (d : Data) (id : ℕ) (word : Word) → read text ≡ Some d
        → MessageId d id → HasWord d word
        → IsOk (spells text) ↔ (AreGood (message_slots word d) × AreGoodActions (group_items word d)) }
{}
