//! Writing JSON token by token: values, arrays and objects (RFC 8259).
ghost use Rattle.std.specs.Prelude.{◌≡◌, ◌∷◌, T, map, OnOk};
ghost use Rattle.serde_json.specs.Data.{array, object};
ghost use Rattle.serde_json.specs.View.{items_of};
ghost use Rattle.room_interface.specs.Prelude.{is_sorted, text_cmp};
ghost use Rattle.room_wire.specs.Inner.Writing.{Tells, TellsMember, TellsMembers, members_of};

use json::Writer;
use osm_elements::Memory;

// A type that is written as one JSON value.
pub trait Told {
    ghost use Rattle.std.specs.Prelude.{OnOk};
    ghost use Rattle.serde_json.specs.Data.{Data};
    ghost use Rattle.room_wire.specs.Inner.Writing.{Tells};

    // the tree that is written
    ghost tree: { Self → Data };

    fn write(&self, out: &mut Writer) -> Result<(), Memory>
        ensures { OnOk result (Tells out.old out.new (tree self.now)) };
}

// A type that is written as one member of an object.
pub trait ToldMember {
    ghost use Rattle.std.specs.Prelude.{List, ℕ, OnOk};
    ghost use Rattle.serde_json.specs.Data.{Data};
    ghost use Rattle.room_wire.specs.Inner.Writing.{TellsMember};

    // the key, and the tree that is written after it
    ghost pair: { Self → List ℕ × Data };

    fn write(&self, out: &mut Writer) -> Result<(), Memory>
        ensures { OnOk result (TellsMember out.old out.new (pair self.now)) };
}

// A pair of a key and a value is written as a member.
impl<'a, V: Told> ToldMember for (&'a str, V) {
    ghost pair = { λ m. (m.0.now, V.tree m.1) };

    fn write(&self, out: &mut Writer) -> Result<(), Memory> {
        out.key(self.0)?;
        self.1.write(out)
    }
}

// Writes an array of these items.
pub fn write_array<V: Told>(out: &mut Writer, items: &[V]) -> Result<(), Memory>
    ensures { OnOk result (Tells out.old out.new (array (items_of (map V.tree items.now)))) }
{
    out.begin_array()?;
    for item in items {
        item.write(out)?;
    }
    out.end_array()?;
    Ok(())
}

// Writes an object of these members, whose keys rise.
pub fn write_object<M: ToldMember>(out: &mut Writer, members: &[M]) -> Result<(), Memory>
    requires { T (is_sorted text_cmp (map M.pair members.now)) }
    ensures { OnOk result (Tells out.old out.new (object (members_of (map M.pair members.now)))) }
{
    out.begin_object()?;
    write_members(out, members)?;
    out.end_object()?;
    Ok(())
}

// Writes an object of a first member and these members after it. The keys rise.
pub fn write_object_from<F: ToldMember, M: ToldMember>(
    out: &mut Writer,
    first: &F,
    members: &[M],
) -> Result<(), Memory>
    requires { T (is_sorted text_cmp (F.pair first.now ∷ map M.pair members.now)) }
    ensures { OnOk result (Tells out.old out.new (object (members_of (F.pair first.now ∷ map M.pair members.now)))) }
{
    out.begin_object()?;
    first.write(out)?;
    write_members(out, members)?;
    out.end_object()?;
    Ok(())
}

// Writes these members into an object that has begun.
fn write_members<M: ToldMember>(out: &mut Writer, members: &[M]) -> Result<(), Memory>
    ensures { OnOk result (TellsMembers out.old out.new (map M.pair members.now)) }
{
    for member in members {
        member.write(out)?;
    }
    Ok(())
}
