//! Laws of names, texts, tags and maps. Each is the contract of a function that does nothing.
ghost use Rattle.std.specs.Prelude.{◌≡◌, ◌≢◌, ◌↔◌, List, ℕ, Some, None, FitsSigned};
ghost use Rattle.std.specs.Int.{w64};
ghost use Rattle.std.specs.Cmp.{IsTotalOrder};
ghost use Rattle.std.specs.FinMap.{IsAntisymmetric};
ghost use Rattle.osm_elements.specs.declared.element.Element.{Element};
ghost use Rattle.osm_elements.specs.declared.name.Name.{Name};
ghost use Rattle.osm_elements.specs.Examples.{names_read, names_ordered, texts_limited, tags_made, tags_counted, tags_changed, tags_refused, rows_changed, elements_made};
ghost use Rattle.osm_elements.specs.NameOrder.{name_cmp};
ghost use Rattle.osm_elements.specs.NameTexts.{name_of, name_text};
ghost use Rattle.osm_elements.specs.Rows.{row_at, put_row, without_row, AreInOrder};
ghost use Rattle.osm_elements.specs.Scenes.{Any};

use std::alloc::Allocator;

/// A text is read as a name if and only if it is the text that is written for the name.
#[tactic(auto, using(crate::specs::Facts::NameTexts::name_read_back))]
pub fn a_name_has_one_text()
    ensures { (text : List ℕ) (n : Name) → FitsSigned w64 n.id → (name_of text ≡ Some n) ↔ (text ≡ name_text n) }
{}

/// The order of names is total, and only equal names compare as equal.
pub fn names_are_ordered()
    ensures total { IsTotalOrder name_cmp }
    ensures equal { IsAntisymmetric name_cmp }
{}

/// A put gives its name the element, leaves the elements of all other names, and keeps the names rising.
pub fn a_put_changes_one_name<A: Allocator>()
    ensures same { (m : List (Name × Element A)) (x : Name) (v : Element A) → row_at (put_row m x v) x ≡ Some v }
    ensures other { (m : List (Name × Element A)) (x : Name) (v : Element A) (q : Name) → q ≢ x
        → row_at (put_row m x v) q ≡ row_at m q }
    ensures order { (m : List (Name × Element A)) (x : Name) (v : Element A) → AreInOrder m
        → AreInOrder (put_row m x v) }
{}

/// Taking a name out removes its element, leaves the elements of all other names, and keeps the names rising.
pub fn taking_out_changes_one_name<A: Allocator>()
    ensures same { (m : List (Name × Element A)) (x : Name) → AreInOrder m → row_at (without_row m x) x ≡ None }
    ensures other { (m : List (Name × Element A)) (x : Name) (q : Name) → q ≢ x → AreInOrder m
        → row_at (without_row m x) q ≡ row_at m q }
    ensures order { (m : List (Name × Element A)) (x : Name) → AreInOrder m → AreInOrder (without_row m x) }
{}

/// Two maps in which each name has the same element are equal.
pub fn a_map_is_what_its_names_have<A: Allocator>()
    ensures { (m n : List (Name × Element A)) → AreInOrder m → AreInOrder n → ((q : Name) → row_at m q ≡ row_at n q)
        → m ≡ n }
{}

/// Taking a name out undoes a put of a new name, and putting the element back undoes taking its name out.
pub fn putting_and_taking_out_undo_each_other<A: Allocator>()
    ensures put { (m : List (Name × Element A)) (x : Name) (v : Element A) → AreInOrder m → row_at m x ≡ None
        → without_row (put_row m x v) x ≡ m }
    ensures taken { (m : List (Name × Element A)) (x : Name) (v : Element A) → AreInOrder m → row_at m x ≡ Some v
        → put_row (without_row m x) x v ≡ m }
{}

/// The definitions agree with examples that were worked out by hand.
pub fn examples_are_as_worked()
    ensures names_read { names_read }
    ensures names_ordered { names_ordered }
    ensures texts_limited { texts_limited }
    ensures tags_made { tags_made }
    ensures tags_counted { tags_counted }
    ensures tags_changed { tags_changed }
    ensures tags_refused { tags_refused }
    ensures rows_changed { (e f : Element Any) → rows_changed e f }
    ensures elements_made { elements_made }
{}
